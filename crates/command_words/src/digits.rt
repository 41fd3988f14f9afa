// A number among the words of a command line: decimal digits, a plus before them or not.
ghost use Rattle.command_words.specs.Numbers.{Reads};

// The number that a text writes; none where it writes no number below 2^64.
pub fn number(text: &str) -> Option<u64>
    ensures { Reads text.now result }
{
    text.parse::<u64>().ok()
}
