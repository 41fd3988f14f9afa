// The statements of Speakall with their mathematics: each theorem stands on the contract of a small function.
#![tactic(auto)]

ghost use Rattle.speakall.specs.Promise.{SeldomMeet, OftenAlone, OneMessage, NoMore, Reached, Main};
ghost use Rattle.speakall.specs.Code.{OnlyOne};
ghost use Rattle.speakall.specs.Example.{NinePlans, ThreeSpeakers};

// Two plans have one slot in at most d - 1 parts.
pub fn seldom_meet()
    ensures { SeldomMeet }
{}

// Each of at most k + 1 speakers is alone in as many parts as its message has numbers, or more.
pub fn often_alone()
    ensures { OftenAlone }
{}

// One message alone lies on the words heard of a speaker: its own.
pub fn one_message()
    ensures { OneMessage }
{}

// Tables of any kind that meet in at most d - 1 parts, each two of them, are at most q^d many.
pub fn no_more()
    ensures { NoMore }
{}

// The tables of our q^d plans meet as seldom, and are q^d many.
pub fn limit_reached()
    ensures { Reached }
{}

// From what is heard each speaker's message can be read, and no other fits; and no plans of any kind that meet so seldom serve more senders.
pub fn whole_promise()
    ensures { Main }
{}

// At most one message of s numbers lies within e of w sound words when 2 e + s is at most w.
pub fn only_one()
    ensures { OnlyOne }
{}

// The nine plans of a channel of three parts, written out.
pub fn nine_plans()
    ensures { NinePlans }
{}

// A frame in which three speak, with the words heard of one of them, written out.
pub fn three_speakers()
    ensures { ThreeSpeakers }
{}
