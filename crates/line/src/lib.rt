// Which number does a line of input hold, and where does the next line begin.
//
// A program reads one decimal number on a line: a year, a month's code. A line that holds anything but one to five figures
// is refused, and so is a line that is empty or missing. Whether the library covers the number is not asked here.
//
// Here stand the rules, in specs/, and what follows from them. The code is in `line_code`.
#![tactic(auto)]
