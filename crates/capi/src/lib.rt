// The table for programs in C: functions on a lent row of numbers of 32 bits, which is a pointer and then a length. include/jeghrumo.h declares them.
#![tactic(auto)]

mod codes;
mod entries;
