//! Laws over two: the same call is made of two values that are the same, and both answer, and leave, the same. Each is
//! proved from the public contract of the call alone. What the program does meets that contract, so whatever else
//! meets it does as the program does, in all that the law compares. A contract that lets a wrong answer through proves
//! no law.
#![tactic(auto)]

pub mod calls;
pub mod chains;
pub mod ends;
pub mod frames;
pub mod kept;
pub mod levels;
pub mod operations;
pub mod pages;
pub mod records;
pub mod restarts;
