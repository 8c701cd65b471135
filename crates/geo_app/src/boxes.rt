//! Boxed views in a list.

ghost use Rattle.std.specs.Prelude.{◌≡◌, [], OnOk};
ghost use Rattle.geo_session.specs.Views.{AreEmpty};

use geo_view::View;
use std::alloc::AllocError;

/// Adds a view without entries to others.
pub(crate) fn add_view(
    views: &mut Vec<Box<dyn View>>,
    view: Box<dyn View>,
) -> Result<(), AllocError>
    requires views { AreEmpty sight views.old.items }
    requires view { (sight view).entries ≡ [] }
    ensures { OnOk result (AreEmpty sight views.new.items) }
{
    views.push(view)?;
    Ok(())
}
