// In which bytes does a sheet keep its numbers.
//
// Numbers are little-endian, in 1, 2 or 4 bytes: the lowest byte comes first, each next counts 256 times as much. A sheet
// is made of a header of 16 bytes, index entries of 8 and rows of 6, each a few numbers one behind the other.
//
// Here stand the rules, in specs/, and what follows from them. The code is in `layout_code`.
#![tactic(auto)]
