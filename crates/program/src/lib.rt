// The rules of the program carve, from the bytes of a grid file to its line, with what its rounds come to and worked files.
#![tactic(auto)]
