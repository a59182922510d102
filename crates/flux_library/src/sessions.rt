//! Sessions by number.

ghost use Rattle.std.specs.Prelude.{◌≡◌};
ghost use Rattle.flux_library.specs.Sessions.{first_as_u64};

use flux_values::Value;

/// The first value, a number, as u64, where a negative one has 2^64 added; of no meaning for
/// other values.
pub fn first_as_u64(args: &[Value]) -> u64
    ensures { result ≡ first_as_u64 args.now }
{
    match args {
        [Value::Int(number), ..] => number.cast_unsigned(),
        _ => 0,
    }
}
