// Every call for C, as include/wattlerugby.h declares it: an answer is a struct by value, whose first field is the refusal number, or 0.
// A name that ends in a number is that of a call whose interface has changed: an older program asks for another name, and is not linked.
#![tactic(auto)]

pub mod machine; // machine.rt: begin, begin coarse, carve, take, open, finish
pub mod looks; // looks.rt: crossing, all points, read, reading a layer, write, judge, practice, the local test
pub mod many; // many.rt: serve
pub mod archive; // archive.rt: the archive's own version
