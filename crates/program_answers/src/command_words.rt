//! The words of the command line of a process.
use cash_amounts::{Memory, Words};

/// The words after the program's name. Where one is no text a single empty word stands for all of them, which is no command
/// line of any program here.
pub fn words_of(rt: &HostRuntime) -> Result<Words, Memory> {
    let mut words = Words::new(rt.alloc());
    let Some(args) = refused_memory::words(rt)? else {
        words.push("")?;
        return Ok(words);
    };
    for word in args.skip(1) {
        words.push(word.as_str())?;
    }
    Ok(words)
}
