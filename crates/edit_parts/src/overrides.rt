//! The overrides of commands, which are unset where the active range changes.

ghost use Rattle.std.specs.Prelude.{◌≡◌, ℕ, ◌<◌, false, length, IfOk, IfSome};
ghost use Rattle.edit_model.specs.DomModel.declared.Content.{Content};
ghost use Rattle.edit_model.specs.DomModel.Forest.{Forest};
ghost use Rattle.edit_model.specs.Valid.{IsPlacedPair};
ghost use Rattle.edit_model.specs.Overrides.{no_overrides, place_of};
ghost use Rattle.edit_parts.specs.Following.{Watches, range_in, unset_if_range_changed};
ghost use Rattle.edit_model.specs.LiveRange.LivePoints.{LivePoints};

use edit_model::Setting;
use edit_model::arena::Arena;
use edit_model::boundary::comes_before;
use edit_model::dom_ranges::{Point, Points};
use edit_model::element_names::Command;
use std::alloc::{AllocError, Global};

const COMMANDS: usize = 32;

/// From the earlier of the selection's points to the later.
#[derive(Clone, Copy, PartialEq, Eq)]
pub struct ActiveRange {
    start: Point,
    end: Point,
}

/// The active range, if there is one, while an override is set.
#[derive(Clone, Copy)]
pub struct Watch {
    range: Option<ActiveRange>,
}

/// The place of a command's override.
pub fn place_of(command: Command) -> usize
    ensures place { result ≡ place_of command }
    ensures bound { result < 32 }
{
    command as usize
}

/// No command has an override.
pub fn no_overrides(alloc: Global) -> Result<Vec<Setting>, AllocError>
    ensures { IfOk result (λ list. list.items ≡ no_overrides) }
{
    let mut list = Vec::with_capacity(alloc, COMMANDS)?;
    for _ in 0..COMMANDS {
        list.push(Setting::Absent)?;
    }
    Ok(list)
}

/// A copy of the overrides.
pub fn copy_overrides(alloc: Global, overrides: &[Setting]) -> Result<Vec<Setting>, AllocError>
    ensures { IfOk result (λ list. list.items ≡ overrides.now) }
{
    let mut list = Vec::with_capacity(alloc, overrides.len())?;
    for setting in overrides {
        list.push(setting.clone()?)?;
    }
    Ok(list)
}

/// Unsets each override.
pub fn unset_overrides(overrides: &mut [Setting])
    requires { length overrides.old ≡ 32 }
    ensures { overrides.new ≡ no_overrides }
{
    for i in 0..overrides.len() {
        overrides[i] = Setting::Absent;
    }
}

fn has_override(overrides: &[Setting]) -> bool
    requires { length overrides.now ≡ 32 }
    ensures { result ≡ false → overrides.now ≡ no_overrides }
{
    for setting in overrides {
        if !matches!(setting, Setting::Absent) {
            return true;
        }
    }
    false
}

fn active_range(arena: &Arena, points: &Points) -> Option<ActiveRange>
    requires { IfSome points.now.selection (IsPlacedPair arena.now.trees) }
    ensures { result ≡ range_in arena.now.trees points.now.selection }
{
    let pair = points.selection()?;
    Some(if comes_before(arena, pair.focus, pair.anchor) {
        ActiveRange {
            start: pair.focus,
            end: pair.anchor,
        }
    } else {
        ActiveRange {
            start: pair.anchor,
            end: pair.focus,
        }
    })
}

/// What is looked at before a step that can change the active range; None where no override is set.
pub fn watch_range(arena: &Arena, points: &Points, overrides: &[Setting]) -> Option<Watch>
    requires settings { length overrides.now ≡ 32 }
    requires placed { IfSome points.now.selection (IsPlacedPair arena.now.trees) }
    ensures { Watches arena.now.trees points.now overrides.now result }
{
    if !has_override(overrides) {
        return None;
    }
    Some(Watch {
        range: active_range(arena, points),
    })
}

/// Unsets the overrides after a step that changed the active range.
pub fn unset_overrides_if_range_changed(
    arena: &Arena,
    points: &Points,
    overrides: &mut [Setting],
    watch: Option<Watch>,
)
    requires settings { length overrides.old ≡ 32 }
    requires placed { IfSome points.now.selection (IsPlacedPair arena.now.trees) }
    ensures { (f : Forest Content) (before : LivePoints) → Watches f before overrides.old watch
        → overrides.new
        ≡ unset_if_range_changed f before arena.now.trees points.now overrides.old }
{
    if let Some(watch) = watch {
        if active_range(arena, points) != watch.range {
            unset_overrides(overrides);
        }
    }
}
