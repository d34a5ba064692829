// The marks of a session: which clients have a transaction running.
ghost use Rattle.std.specs.Prelude.{◌≡◌};
ghost use Rattle.rules.specs.Sessions.{is_active, set_active};

use interface::{ClientNumber, Session};

// Whether client k has a transaction running.
pub fn is_active(s: Session, k: ClientNumber) -> bool
    ensures { result ≡ is_active s k.number }
{
    s.active[k.index()]
}

// The session with client k marked, or not.
pub fn set_active(mut s: Session, k: ClientNumber, on: bool) -> Session
    ensures { result ≡ set_active s k.number on }
{
    s.active[k.index()] = on;
    s
}
