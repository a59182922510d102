//! Whether what a line says is what comes.

ghost use Rattle.std.specs.Prelude.{◌≡◌, ◌↔◌, IsTrue};

use flow_state::Coming;
use flux_values::{Answer, Value};

pub fn same_coming(a: Coming, b: Coming) -> bool
    ensures { IsTrue result ↔ (a ≡ b) }
{
    a == b
}

pub fn same_values(a: &[Value], b: &[Value]) -> bool
    ensures { IsTrue result ↔ (a.now ≡ b.now) }
{
    a == b
}

pub fn same_answer(a: &Answer, b: &Answer) -> bool
    ensures { IsTrue result ↔ (a.now ≡ b.now) }
{
    a == b
}
