//! The law as a clause of a call that does nothing.

ghost use Rattle.push_work.specs.Laws.{PushesAreServed};

use push_codec::{PushCodec, pushes_are_coded};
use remote_port::heard_calls_are_served;

/// What a push heard over a connection to a server of this program is what that server did.
pub fn pushes_are_served()
    ensures { PushesAreServed }
{
    heard_calls_are_served::<PushCodec>();
    pushes_are_coded();
}
