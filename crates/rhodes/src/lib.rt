// New Year by Rhodes' closed formula (source 002), worked in whole numbers, beside the counted one of `newyear`.
//
// She does not count months. The molad of Tishri falls in August or later of the Julian year H − 3761; how far into it
// goes by the year's place in the cycle of 19 years, by the years since the last Julian leap year, and by the 1,565 parts
// that 235 months fall short of 19 Julian years. From the molad's day of August and its time follow a weekday, a delay,
// and New Year's day of August, counted on past 31.
//
// Here stand her steps, in specs/, and that they lead to the counted New Year. The code is in `rhodes_code`.
#![tactic(auto)]
