// Calls by letters: d, r, w and h for dial, read, write and hang_up, A, R, S and F for accept, recv, send and finish, c for
// the clock, n for a word, s for a text, l for load, and k and K for an append.
use gate_world::{Chance, Clock, Console, Front, Keeper, Link, World};
use scripted_world::{ScriptWorld, SteadyWorld};

/// Makes a call that has no failure.
fn call_plainly<W: World>(world: &mut W, letter: u8) {
    match letter {
        b'h' => world.hang_up(),
        b'F' => world.finish(),
        b'c' => {
            let _ = world.now();
        }
        b'n' => {
            let _ = world.word();
        }
        _ => {}
    }
}

/// Makes a call of the keeper; false where it fails.
fn call_keeper<K: Keeper>(keeper: &mut K, letter: u8) -> bool {
    match letter {
        b'l' => keeper.load().is_ok(),
        b'k' => keeper.append(b"k").is_ok(),
        b'K' => keeper.append(b"KK").is_ok(),
        _ => true,
    }
}

/// Makes the call of the letter; false where it fails.
pub(crate) fn call(world: &mut ScriptWorld, letter: u8) -> bool {
    let mut room = [7u8; 4];
    match letter {
        b'd' => world.dial().is_ok(),
        b'r' => world.read(&mut room).is_ok(),
        b'w' => world.write(b"q").is_ok(),
        b'A' => world.accept().is_ok(),
        b'R' => world.recv(&mut room).is_ok(),
        b'S' => world.send(b"Q").is_ok(),
        b's' => world.say(b"!").is_ok(),
        _ => {
            call_plainly(world, letter);
            call_keeper(world, letter)
        }
    }
}

/// Makes the call of the letter in a world in which none fails: the arm for a failure is proved to be out of reach.
pub(crate) fn call_steadily(world: &mut SteadyWorld, letter: u8) {
    let mut room = [7u8; 4];
    let done = match letter {
        b'd' => world.dial().is_ok(),
        b'r' => world.read(&mut room).is_ok(),
        b'w' => world.write(b"q").is_ok(),
        b'A' => world.accept().is_ok(),
        b'R' => world.recv(&mut room).is_ok(),
        b'S' => world.send(b"Q").is_ok(),
        b's' => world.say(b"!").is_ok(),
        _ => {
            call_plainly(world, letter);
            let _ = call_keeper(world, letter);
            true
        }
    };
    if !done {
        unreachable!();
    }
}
