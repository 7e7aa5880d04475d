//! The usage line.
ghost use Rattle.std.specs.Prelude.{◌≡◌};
ghost use Rattle.command_words.specs.Usage.{usage_line as modes_line};

/// The line for a command line of no known form.
pub fn usage_line() -> &'static str
    ensures value { result.now ≡ modes_line }
{
    "usage: cloner run MODEL SCRIPT [--workers N], solo MODEL SCRIPT --clone NAME, live MODEL SCRIPT [--workers N], gen NUMBER [--workers N], watch MODEL SCRIPT WATCHES [--workers N], stats MODEL SCRIPT [--workers N], save MODEL SCRIPT --clone NAME --until T, resume MODEL SNAPSHOT, links MODEL SCRIPT [--workers N]\n"
}
