//! The lists of extents: each has exactly the extents whose home it is (rules 20 and 21).

ghost use Rattle.std.specs.Prelude.{◌≡◌, ◌↔◌, ◌<◌, ◌≤◌, ◌+◌, ◌*◌, IsTrue, List, ℕ, length, All, OnOk, ◌≢◌, Err};
ghost use Rattle.page_source.specs.Lists.{AreDistinct, HaveSameMembers};
ghost use Rattle.page_source.specs.Checks.{Answers, Finds};
ghost use Rattle.page_source.specs.Verdict.{Each};
ghost use Rattle.space_audit.specs.Lists.{at_home, HomeListChecks, HomeList, ThreeChecks, numbered_list};
ghost use Rattle.space_audit.specs.Lists.{NumberCheck, IsListed, ListChecks};

use crate::homes::Homes;
use extent_map::laws::used_pages_are_of_extents;
use inode_segments::Inodes;
use page_source::{Fault, Rule, Steps, Stop};
use space_header::laws::links_one_list;
use space_header::{
    Base, DESCRIBED_EXTENTS, DESCRIBED_PAGES, FollowError, Node, SpaceHeader, follow,
};
use std::alloc::Global;
use std::sync::ledger::Ledger;

/// Checks all lists of extents, and then that each extent has a home.
pub(crate) fn check_lists<L: Ledger>(
    alloc: Global,
    header: &SpaceHeader,
    inodes: &Inodes,
    nodes: &[Node],
    homes: &Homes,
    steps: &mut Steps<L>,
) -> Result<(), Stop>
    requires few { length nodes.now ≤ 65536 }
    requires same { length homes.now.numbers ≡ length nodes.now }
    requires lists { homes.now.lists ≡ 3 + 3 * length inodes.now.places }
    ensures exact { (file : List ℕ) → IsListed file header.now inodes.now nodes.now homes.now.numbers
        → Answers result (ListChecks file) }
    ensures bound { steps.new ≤ steps.old + 2 * length nodes.now }
    ensures onward { steps.old ≤ steps.new }
    ensures source { result ≢ Err Stop.Source }
{
    used_pages_are_of_extents();
    check_three(
        alloc,
        0,
        &header.free,
        &header.free_frag,
        &header.full_frag,
        nodes,
        homes,
        0,
        steps,
    )?;
    for s in 0..inodes.count() {
        let inode = inodes.inode(s);
        check_three(
            alloc,
            inodes.place(s).page,
            &inode.free,
            &inode.not_full,
            &inode.full,
            nodes,
            homes,
            3 + 3 * s,
            steps,
        )?;
    }
    Ok(check_homes(homes.numbers(), homes.lists())?)
}

/// Checks three lists whose bases stand on one page and whose homes are numbered in a row.
fn check_three<L: Ledger>(
    alloc: Global,
    holder: u32,
    first: &Base,
    second: &Base,
    third: &Base,
    nodes: &[Node],
    homes: &Homes,
    home: u32,
    steps: &mut Steps<L>,
) -> Result<(), Stop>
    requires few { length nodes.now ≤ 65536 }
    requires same { length homes.now.numbers ≡ length nodes.now }
    requires room { home + 3 ≤ homes.now.lists }
    requires range { home + 3 < 4294967296 }
    ensures exact { Answers result (ThreeChecks nodes.now
        (numbered_list homes.now.numbers first.now holder home)
        (numbered_list homes.now.numbers second.now holder (home + 1))
        (numbered_list homes.now.numbers third.now holder (home + 2))) }
    ensures followed { OnOk result (steps.new ≡ steps.old + (length (at_home homes.now.numbers home)
        + length (at_home homes.now.numbers (home + 1)) + length (at_home homes.now.numbers (home + 2)))) }
    ensures bound { steps.new ≤ steps.old + (length (at_home homes.now.numbers home)
        + length (at_home homes.now.numbers (home + 1)) + length nodes.now) }
    ensures onward { steps.old ≤ steps.new }
    ensures source { result ≢ Err Stop.Source }
{
    check_list(alloc, first, holder, nodes, homes, home, steps)?;
    check_list(alloc, second, holder, nodes, homes, home + 1, steps)?;
    check_list(alloc, third, holder, nodes, homes, home + 2, steps)
}

/// Checks one list of extents, whose base stands on the page `holder`.
#[tactic(auto, unfolding(crate::specs::Lists::HomeListChecks))]
fn check_list<L: Ledger>(
    alloc: Global,
    base: &Base,
    holder: u32,
    nodes: &[Node],
    homes: &Homes,
    home: u32,
    steps: &mut Steps<L>,
) -> Result<(), Stop>
    requires few { length nodes.now ≤ 65536 }
    requires same { length homes.now.numbers ≡ length nodes.now }
    requires room { home < homes.now.lists }
    ensures exact { Answers result (HomeListChecks nodes.now
        (numbered_list homes.now.numbers base.now holder home)) }
    ensures followed { OnOk result (steps.new ≡ steps.old + length (at_home homes.now.numbers home)) }
    ensures bound { steps.new ≤ steps.old + length nodes.now }
    ensures onward { steps.old ≤ steps.new }
    ensures source { result ≢ Err Stop.Source }
{
    links_one_list();
    let list = match follow(alloc, base, nodes, steps) {
        Ok(list) => list,
        Err(FollowError::ChainBroken) => return Err(Stop::Broken(Rule::ExtentList.at(holder))),
        Err(FollowError::Memory) => return Err(Stop::Memory),
    };
    if !holds_home(list.items(), homes, home) {
        return Err(Stop::Broken(Rule::ExtentHome.at(holder)));
    }
    Ok(())
}

/// Whether the members of a list are exactly the extents with this home. They are where each member
/// has this home and there are as many.
fn holds_home(list: &[u32], homes: &Homes, home: u32) -> bool
    requires distinct { AreDistinct list.now }
    requires within { All (λ e. e < length homes.now.numbers) list.now }
    requires room { home < homes.now.lists }
    ensures { IsTrue result ↔ HaveSameMembers list.now (at_home homes.now.numbers home) }
{
    let count = homes.count(home);
    if list.len() != count as usize {
        return false;
    }
    let numbers = homes.numbers();
    for extent in list {
        if numbers[*extent as usize] != home {
            return false;
        }
    }
    true
}

/// Checks that the home of each extent is one of so many lists.
fn check_homes(numbers: &[u32], lists: u32) -> Result<(), Fault>
    requires { length numbers.now ≤ 65536 }
    ensures { Finds result (Each (length numbers.now) (NumberCheck numbers.now lists)) }
{
    for extent in 0..numbers.len() as u32 {
        if numbers[extent as usize] >= lists {
            let holder = DESCRIBED_PAGES * (extent / DESCRIBED_EXTENTS);
            return Err(Rule::ExtentHome.at(holder));
        }
    }
    Ok(())
}
