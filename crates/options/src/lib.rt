// Options, which may stand anywhere among the words of a command line: whether one is given, and the words without it.
#![tactic(auto)]

ghost use Rattle.command_words.specs.Wrong.{words_in};
ghost use Rattle.options.specs.Options.{is_given, kept_word, without};
ghost use Rattle.std.specs.Prelude.{◌≡◌, ◌++◌, IfOk, OnOk};

use std::alloc::{AllocError, Global};

// Whether the option stands among the words.
pub fn is_given(option: &str, texts: &[String]) -> bool
    ensures { result ≡ is_given option.now (words_in texts.now) }
{
    texts.iter().any(|text| text.as_str() == option)
}

// Puts a word after the others, unless it is the option.
fn keep(heap: Global, option: &str, text: &str, words: &mut Vec<String>) -> Result<(), AllocError>
    ensures { OnOk result (words_in words.new.items ≡ words_in words.old.items ++ kept_word option.now text.now) }
{
    if text != option {
        words.push(String::from_str(heap, text)?)?;
    }
    Ok(())
}

// The words without the option, in their order.
fn others(heap: Global, option: &str, texts: &[String]) -> Result<Vec<String>, AllocError>
    ensures { IfOk result (λ v. words_in v.items ≡ without option.now (words_in texts.now)) }
{
    let mut words = Vec::new(heap);
    for text in texts {
        keep(heap, option, text.as_str(), &mut words)?;
    }
    Ok(words)
}

// The words of a command line without an option, and whether it was given: both, since the words are there either way.
#[derive(Drop)]
pub struct Sorted {
    pub given: bool,
    pub words: Vec<String>,
}

// Takes an option out of the words of a command line.
pub fn take_out(heap: Global, option: &str, texts: &[String]) -> Result<Sorted, AllocError>
    ensures { IfOk result (λ s. (s.given ≡ is_given option.now (words_in texts.now)) × (words_in s.words.items ≡ without option.now (words_in texts.now))) }
{
    let given = is_given(option, texts);
    let words = others(heap, option, texts)?;
    Ok(Sorted { given, words })
}
