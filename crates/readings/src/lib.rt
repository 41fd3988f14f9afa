// What is to be made of the words heard of one sender, some of them perhaps wrong: the definitions with their mathematics, and no algorithm.
// Each theorem stands on the contract of a small function.
#![tactic(auto)]

ghost use Rattle.readings.specs.Damage.{Coded, Majority};

// For every channel the slots, the words and the answers by definition are what the system must be.
pub fn coded()
    ensures { Coded }
{}

// Five words of which the majority lies on each of two messages: neither is read.
pub fn majority()
    ensures { Majority }
{}
