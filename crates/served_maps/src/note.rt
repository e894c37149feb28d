// Noting the touches of a step.
ghost use Rattle.std.specs.Prelude.{◌≡◌, ◌+◌, ◌++◌, ◌≤◌, List, length};
ghost use Rattle.change_list.specs.Kept.{IsOf};
ghost use Rattle.change_list.specs.declared.entries.Entry.{Entry};
ghost use Rattle.change_list.specs.declared.list.TheConstants.{MAX_PLACE};

use change_list::{ChangeList, Entry};

/// Notes each touch, in order. It takes no memory.
pub fn note(list: &mut ChangeList, touches: &[Entry])
    requires { list.old.place + length touches.now ≤ MAX_PLACE }
    ensures place { list.new.place ≡ list.old.place + length touches.now }
    ensures history { (h : List Entry) → IsOf list.old h → IsOf list.new (h ++ touches.now) }
{
    for touch in touches {
        list.touch(*touch);
    }
}
