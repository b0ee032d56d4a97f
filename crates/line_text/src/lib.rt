// Support code of the programs: text that comes and goes in lines. What the words of a line
// are read as is promised (specs/Words.antt), and what an answer is made of (specs/Out.antt); of what is printed and read nothing is.
#![tactic(auto)]

pub mod answers;
pub mod bytes;
pub mod printing;
pub mod strings;
pub mod words;
