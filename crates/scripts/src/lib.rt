// What the programs read and print. Their input is lines: commands of the bench alone, or a script that holds the bench against expected
// output. A line of a script is a command of the bench, or one of these:
//   load=XXXXXXXX ..          loads: the places, entries and words, then the module's words, eight hexadecimal digits each
//   list                      prints the listing
//   short=N                   asks for the listing in an output of N bytes
//   clear                     makes every word of the store 0
//   alter=XXXXXXXX XXXXXXXX   makes one word of the store another: its index, then the word
#![tactic(auto)]

pub mod printing;
pub mod script;
