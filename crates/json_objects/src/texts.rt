//! The text of a value.

ghost use Rattle.std.specs.Prelude.{IfOk, string_bytes};
ghost use Rattle.serde_json.specs.View.{view};
ghost use Rattle.json_objects.specs.Texts.{IsPlain, IsTextOf, most_levels};

use serde_json::Value;
use std::alloc::{AllocError, Global};

/// The text of a value in one line, with no space between its tokens. The value has no float, and nests at most 127
/// levels deep.
pub fn text_of(alloc: Global, value: &Value) -> Result<String, AllocError>
    requires { IsPlain most_levels (view value.now) }
    ensures { IfOk result (λ text. IsTextOf (view value.now) (string_bytes text)) }
{
    value.to_string(alloc)
}
