// The command line of `check` or `messages` within that of the program.
ghost use Rattle.std.specs.Prelude.{◌≡◌, ◌++◌, ◌∷◌, [], IfOk, codes, map, option_map, string_bytes};
ghost use Rattle.cli_args.specs.ToolLine.{help_words, is_tool, tool_words};

use std::alloc::{AllocError, Global};

// Returns whether a word is the name of `check` or of `messages`.
fn is_tool(word: &str) -> bool
    ensures { result ≡ is_tool word.now }
{
    word == "check" || word == "messages"
}

// Returns a copy of these words.
fn copy_of(alloc: Global, words: &[String]) -> Result<Vec<String>, AllocError>
    ensures { IfOk result (λ copy. map string_bytes copy.items ≡ map string_bytes words.now) }
{
    let mut copy = Vec::new(alloc);
    for word in words {
        copy.push(String::from_str(alloc, word)?)?;
    }
    Ok(copy)
}

// Returns the words that ask for the help of these, if they begin with the name of a tool.
fn help_words(alloc: Global, words: &[String]) -> Result<Option<Vec<String>>, AllocError>
    ensures { IfOk result (λ found. option_map (λ asked. map string_bytes asked.items) found
        ≡ help_words (map string_bytes words.now)) }
{
    let Some(name) = words.first() else {
        return Ok(None);
    };
    if !is_tool(name) {
        return Ok(None);
    }
    let mut asked = copy_of(alloc, words)?;
    asked.push(String::from_str(alloc, "--help")?)?;
    Ok(Some(asked))
}

/// Returns the words for `check` or `messages` among those of the program, whose name is the first.
/// The word `help` before them asks for the help. Returns `None` if they are for neither.
///
/// # Errors
///
/// Memory ran out.
pub fn tool_words(alloc: Global, words: &[String]) -> Result<Option<Vec<String>>, AllocError>
    ensures { IfOk result (λ found. option_map (λ asked. map string_bytes asked.items) found
        ≡ tool_words (map string_bytes words.now)) }
{
    let Some((_program, words)) = words.split_first() else {
        return Ok(None);
    };
    let Some((name, others)) = words.split_first() else {
        return Ok(None);
    };
    if is_tool(name) {
        return Ok(Some(copy_of(alloc, words)?));
    }
    if name.as_str() == "help" {
        return help_words(alloc, others);
    }
    Ok(None)
}
