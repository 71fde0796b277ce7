// Whether the session and the mark of each chip are ones that it can have.
ghost use Rattle.std.specs.Prelude.{◌≡◌, ◌&&◌, ◌||◌, true, eqb, leb, [], ◌∷◌};
ghost use Rattle.several_chips.specs.State.{mid_read};
ghost use Rattle.several_chips.specs.Members.{sound_member};
ghost use Rattle.several_chips.specs.Numbers.{all_sound};
ghost use Rattle.several_chips.specs.Promises.{AllBytes};

use base_chip::Chip;
use bus_session::Port;
use bus_session_bytes::{are_session, session_of};
use bus_soundness::sound;
use several_chips::{Member, mid_read};

// Whether a mark is 0 or 1, and set only where bits of a read byte are taken.
fn mark_good(contended: u8, port: Port) -> bool
    ensures { result ≡ (leb contended 1 && (eqb contended 0 || mid_read port)) }
{
    (contended <= 1) & ((contended == 0) | mid_read(port))
}

// Whether the bytes of a chip are a sound session of a newer chip, with a mark that it can have. A chip by value holds bytes, and a chip of
// a lent list does not say so: that is what the second clause adds.
fn sound_member(member: Member) -> bool
    ensures sound { result ≡ sound_member member }
    ensures bytes { AllBytes (member ∷ []) }
{
    let bytes = member.session;
    if are_session(&bytes) {
        let session = session_of(&bytes);
        let port = session.port;
        return sound(Chip::Newer, session) & mark_good(member.contended, port);
    }
    false
}

// Whether all chips are sound. Their sessions hold bytes, sound or not.
pub fn all_sound(members: &[Member]) -> bool
    ensures sound { result ≡ all_sound members.now }
    ensures bytes { AllBytes members.now }
{
    let mut good = true;
    for member in members {
        good = good & sound_member(*member);
    }
    good
}
