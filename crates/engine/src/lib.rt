#![tactic(auto)]

// The engine: the calls on a line by value. A call takes the head, the table of 64 records with the number n
// of them that were lent, and the entries; it answers, and gives back head and table. Nothing is assumed of the
// numbers: the check of `rules` comes first. Each promise is one equation with the definitions of `line`.
//
// `opening::open` opens a line, `survey::survey` surveys one, and `step::step` and `step::order` are what
// the owner and the desks call; their steps stand in the crates `owner` and `desks`.
pub mod opening;
pub mod step;
pub mod survey;
