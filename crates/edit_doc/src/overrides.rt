//! The overrides of commands.

ghost use Rattle.std.specs.Prelude.{◌≡◌, IfOk, IfSome};
ghost use Rattle.edit_model.specs.DomModel.declared.Content.{Content};
ghost use Rattle.edit_model.specs.DomModel.Forest.{Forest};
ghost use Rattle.edit_model.specs.LiveRange.LivePoints.{LivePoints};
ghost use Rattle.edit_model.specs.Overrides.{no_overrides, setting_of, with_setting};
ghost use Rattle.edit_model.specs.Valid.{IsPlacedPair};
ghost use Rattle.edit_parts.specs.Following.{Watches, unset_if_range_changed};

use crate::{Arena, Points, Setting};
use edit_model::element_names::Command;
use edit_parts::{Watch, place_of, unset_overrides_if_range_changed, watch_range};
use std::alloc::{AllocError, Global};
use std::marker::Model;

// A setting of each command, in their order, and whether one may be set. Mostly none is, and then an
// edit looks at none.
#[derive(Drop)]
pub(crate) struct Overrides {
    list: Vec<Setting>,
    some: bool,
}

impl Model for Overrides {
    ghost use Rattle.std.specs.Prelude.{◌≡◌, Bool, List, length};
    ghost use Rattle.edit_model.specs.declared.settings.Setting.{Setting};

    ghost Value = { List Setting };

    ghost use Rattle.edit_model.specs.Overrides.{no_overrides};

    ghost view = { λ o. o.list.items };

    ghost invariant = { λ o. (length o.list.items ≡ 32)
        × (o.some ≡ Bool.false → o.list.items ≡ no_overrides) };
}

impl Overrides {
    // No command has an override.
    #[tactic(auto, unfolding(edit_model::specs::Overrides::no_overrides))]
    pub(crate) fn none(alloc: Global) -> Result<Overrides, AllocError>
        ensures { IfOk result (λ o. o ≡ no_overrides) }
    {
        Ok(Overrides {
            list: edit_parts::no_overrides(alloc)?,
            some: false,
        })
    }

    pub(crate) fn copy(&self, alloc: Global) -> Result<Overrides, AllocError>
        ensures { IfOk result (λ o. o ≡ self.now) }
    {
        Ok(Overrides {
            list: edit_parts::copy_overrides(alloc, &self.list)?,
            some: self.some,
        })
    }

    // Unsets each.
    pub(crate) fn unset(&mut self)
        ensures { self.new ≡ no_overrides }
    {
        edit_parts::unset_overrides(&mut self.list);
        self.some = false;
    }

    pub(crate) fn get(&self, command: Command) -> &Setting
        ensures { result.now ≡ setting_of self.now command }
    {
        &self.list[place_of(command)]
    }

    #[tactic(auto, unfolding(edit_model::specs::Overrides::with_setting))]
    pub(crate) fn set(&mut self, command: Command, setting: Setting)
        ensures { self.new ≡ with_setting self.old command setting }
    {
        self.list[place_of(command)] = setting;
        self.some = true;
    }

    // What to watch until the points stand where a change takes them.
    pub(crate) fn watch(&self, arena: &Arena, points: &Points) -> Option<Watch>
        requires { IfSome points.now.selection (IsPlacedPair arena.now.trees) }
        ensures { Watches arena.now.trees points.now self.now result }
    {
        if !self.some {
            return None;
        }
        watch_range(arena, points, &self.list)
    }

    // Unsets each where the change moved the active range.
    pub(crate) fn unset_if_range_changed(
        &mut self,
        arena: &Arena,
        points: &Points,
        watch: Option<Watch>,
    )
        requires { IfSome points.now.selection (IsPlacedPair arena.now.trees) }
        ensures { (f : Forest Content) (before : LivePoints) → Watches f before self.old watch
            → self.new
            ≡ unset_if_range_changed f before arena.now.trees points.now self.old }
    {
        if self.some {
            unset_overrides_if_range_changed(arena, points, &mut self.list, watch);
        }
    }
}
