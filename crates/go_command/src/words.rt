// The words of the command.
ghost use Rattle.std.specs.Prelude.{◌≡◌, option_map};
ghost use Rattle.go_command.specs.Words.{is_flag, is_root, roots_of, roots_view};

use go_base::Word;

/// The root that the words name, and the root of stubs; None exactly where the words are not
/// `ROOT` or `ROOT --stubs ROOT2`, or a root is empty, or the first begins with `-`.
pub fn root_words(words: &[Word]) -> Option<(&Word, Option<&Word>)>
    ensures { option_map roots_view result ≡ roots_of words.now }
{
    match words {
        [root] => {
            if is_root(root.as_bytes()) {
                Some((root, None))
            } else {
                None
            }
        }
        [root, flag, stubs] => {
            if is_root(root.as_bytes())
                && is_flag(flag.as_bytes())
                && !stubs.as_bytes().is_empty()
            {
                Some((root, Some(stubs)))
            } else {
                None
            }
        }
        _ => None,
    }
}

fn is_root(word: &[u8]) -> bool
    ensures { result ≡ is_root word.now }
{
    match word {
        [] => false,
        [first, ..] => *first != b'-',
    }
}

fn is_flag(word: &[u8]) -> bool
    ensures { result ≡ is_flag word.now }
{
    word == b"--stubs".as_slice()
}
