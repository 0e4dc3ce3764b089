//! Functions that drop a value after its use, and that repeat a call once if an allocation fails.

use crate::outcome::Reported;
use crate::words::Words;

/// Passes a value to `look`, and then drops the value.
pub(crate) fn look_at<T: Drop, R, F: FnOnce(&T) -> R>(value: T, look: F) -> R
    requires { F.IsAlwaysCallable look }
{
    look(&value)
}

/// Passes a value to `change`, and then drops the value.
pub(crate) fn change<T: Drop, R, F: FnOnce(&mut T) -> R>(value: T, change: F) -> R
    requires { F.IsAlwaysCallable change }
{
    let mut value = value;
    change(&mut value)
}

/// Calls `ask`, and once more if an allocation fails.
pub(crate) fn ask_twice<T: Drop, F: FnMut() -> Result<T, Reported>>(
    ask: F,
    words: &mut Words,
) -> Result<T, Reported>
    requires { F.IsAlwaysCallable ask }
{
    let mut ask = ask;
    match ask() {
        Err(Reported::NoMemory) => {
            words.say("no memory");
            ask()
        }
        answer => answer,
    }
}
