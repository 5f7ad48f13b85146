//! What is so of finite maps, key sets, lists in order and rows that are read as entries, whatever
//! they hold. It has definitions and lemmas alone: nothing of it is in a program.
#![tactic(auto)]
