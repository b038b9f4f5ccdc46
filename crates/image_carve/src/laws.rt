//! Laws of what is carved, each the contract of a function that does nothing.

ghost use Rattle.image_carve.specs.Laws.{WhatStoodIsCarved, HasOneCarvedMap, CarvedPagesStand};

/// A page of a tablespace that stands, and occurs in the image with no later version of it, is carved.
#[tactic(auto, using(crate::proofs::Versions::what_stood))]
pub fn what_stood_is_carved()
    ensures { WhatStoodIsCarved }
{}

/// What is carved of a space in an image is one map.
pub fn carved_map_is_one()
    ensures { HasOneCarvedMap }
{}

/// Each page that is carved stands by itself, with the space and its number.
#[tactic(auto, using(crate::proofs::Versions::pages_stand))]
pub fn carved_pages_stand()
    ensures { CarvedPagesStand }
{}
