//! Touches by rising object and version.

ghost use Rattle.std.specs.Prelude.{OnOk};
ghost use Rattle.replica.specs.Order.{IsOrdered, AreSame};

use crate::touch::ObjectTouch;
use std::alloc::AllocError;

/// Sorts touches by object and version. Those of one version stay in their order.
pub(crate) fn sort_touches(touches: &mut Vec<ObjectTouch>) -> Result<(), AllocError>
    ensures ordered { OnOk result (IsOrdered touches.new.items) }
    ensures same { OnOk result (AreSame touches.old.items touches.new.items) }
{
    touches.sort_by_key(|touch| (touch.object, touch.version()))?;
    Ok(())
}
