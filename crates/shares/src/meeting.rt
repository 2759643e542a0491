//! How the hands of a run meet, and what is left in them when they are back.

ghost use Rattle.std.specs.Prelude.{◌≡◌, ◌<◌, ◌-◌, ◌++◌, [], length, map, take, drop, All, IfOk, OnOk};
ghost use Rattle.shares.specs.Hands.{AreLeft, AreTogether, IsEmptyHand, IsShut, AreOthers, some_refused};
ghost use Rattle.shares.specs.Meeting.{empty_deque, new_other, with_less, stealer_lists, deques_with, AreApart, AreWhole, AddsAllLeft};

use crate::deque::Deal;
use crate::hand::Hand;
use crate::owned::{Deque, Other};
use std::alloc::{AllocError, Global};

/// A deque for each worker, all empty, each with all parts.
fn fresh<H: Deal>(alloc: Global, workers: u8) -> Result<Vec<Deque<H>>, AllocError>
    requires workers { workers ≡ H.workers }
    ensures count { IfOk result (λ deques. length deques.items ≡ workers) }
    ensures empty { IfOk result (λ deques. deques.items ≡ map (empty_deque workers) (map (λ d. d.name) deques.items)) }
{
    let mut deques = Vec::with_capacity(alloc, usize::from(workers))?;
    for _made in 0..workers {
        deques.push(Deque::new(alloc)?)?;
    }
    Ok(deques)
}

/// A stealer of each deque but the last, in order. Each of these deques gives one part away.
fn others_of<H: Deal>(
    alloc: Global,
    deques: &mut Vec<Deque<H>>,
) -> Result<Vec<Other<H>>, AllocError>
    requires parts { All (λ d. 1 < d.parts) (take (length deques.old.items - 1) deques.old.items) }
    ensures deques { OnOk result (deques.new.items ≡ map with_less (take (length deques.old.items - 1) deques.old.items) ++ drop (length deques.old.items - 1) deques.old.items) }
    ensures others { IfOk result (λ others. others.items ≡ map (λ d. new_other d.name) (take (length deques.old.items - 1) deques.old.items)) }
{
    let count = deques.len().saturating_sub(1);
    let mut others = Vec::with_capacity(alloc, count)?;
    for place in 0..count {
        others.push(deques[place].other()?)?;
    }
    Ok(others)
}

/// The stealers of all hands, those of the last hand first. Each hand gets one of each other deque, by
/// rising number from its own and then from 0 up.
fn all_others<H: Deal>(
    alloc: Global,
    deques: &mut Vec<Deque<H>>,
) -> Result<Vec<Vec<Other<H>>>, AllocError>
    requires empty { deques.old.items ≡ map (empty_deque (length deques.old.items)) (map (λ d. d.name) deques.old.items) }
    ensures deques { OnOk result (deques.new.items ≡ map (empty_deque 1) (map (λ d. d.name) deques.old.items)) }
    ensures others { IfOk result (λ others. map (λ v. v.items) others.items ≡ stealer_lists (map (λ d. d.name) deques.old.items) (length deques.old.items)) }
{
    let count = deques.len();
    let mut others = Vec::with_capacity(alloc, count)?;
    for _hand in 0..count {
        others.push(others_of(alloc, deques)?)?;
        deques.rotate_right(1);
    }
    Ok(others)
}

/// The hands of that many workers, in the order of their numbers, all empty. Each has the stealers of all
/// others.
pub fn hands<H: Deal>(alloc: Global, workers: u8) -> Result<Vec<Hand<H>>, AllocError>
    requires workers { workers ≡ H.workers }
    ensures together { IfOk result (λ hands. AreTogether workers (map (λ h. h.place) hands.items)) }
    ensures empty { IfOk result (λ hands. All IsEmptyHand hands.items) }
{
    let mut deques = fresh(alloc, workers)?;
    let mut others = all_others(alloc, &mut deques)?;
    let mut hands = Vec::with_capacity(alloc, usize::from(workers))?;
    for deque in deques {
        let own = others.pop().unwrap();
        hands.push(Hand::of(deque, own, workers))?;
    }
    Ok(hands)
}

/// Hands taken apart: what their lists held, their deques, and their stealers.
#[derive(Drop)]
struct Apart<H: Deal> {
    left: Vec<u32>,
    deques: Vec<Deque<H>>,
    others: Vec<Vec<Other<H>>>,
}

/// Takes hands apart.
fn take_apart<H: Deal>(alloc: Global, hands: Vec<Hand<H>>) -> Result<Apart<H>, AllocError>
    ensures apart { IfOk result (λ a. AreApart hands.items a.left.items a.deques.items (map (λ v. v.items) a.others.items)) }
    ensures below { IfOk result (λ a. All (λ b. b < H.blocks) a.left.items) }
{
    let mut left = Vec::new(alloc);
    let mut deques = Vec::new(alloc);
    let mut others = Vec::new(alloc);
    for hand in hands {
        let (list, deque, own) = hand.apart();
        left.extend_from_slice(list.as_slice())?;
        deques.push(deque)?;
        others.push(own)?;
    }
    Ok(Apart {
        left,
        deques,
        others,
    })
}

/// Gives deques their stealers back, one each, as far as there are some.
fn take_back<H: Deal>(deques: &mut Vec<Deque<H>>, others: Vec<Other<H>>)
    requires names { map (λ o. o.name) others.items ≡ take (length others.items) (map (λ d. d.name) deques.old.items) }
    ensures { deques.new.items ≡ deques_with deques.old.items others.items ++ drop (length others.items) deques.old.items }
{
    let mut place = 0;
    for other in others {
        deques[place].take_back(other);
        place += 1;
    }
}

/// Gives the deques of hands all their stealers back.
fn take_all_back<H: Deal>(deques: &mut Vec<Deque<H>>, others: Vec<Vec<Other<H>>>)
    requires count { length others.items ≡ length deques.old.items }
    requires one_part { All (λ d. d.parts ≡ 1) deques.old.items }
    requires names { AreOthers (map (λ d. d.name) deques.old.items) (map (map (λ o. o.name)) (map (λ v. v.items) others.items)) }
    ensures { AreWhole (length deques.old.items) deques.old.items (map (λ v. v.items) others.items) deques.new.items }
{
    let mut others = others;
    while let Some(own) = others.pop() {
        take_back(deques, own);
        deques.rotate_right(1);
    }
}

/// Appends what is left in deques of which the owners have every part.
fn drain_all<H: Deal>(deques: Vec<Deque<H>>, left: &mut Vec<u32>) -> Result<(), AllocError>
    requires parts { All (λ d. d.parts ≡ H.workers) deques.items }
    ensures { OnOk result (AddsAllLeft H.blocks deques.items left.old.items left.new.items) }
{
    for deque in deques {
        let mut deque = deque;
        deque.drain(left)?;
    }
    Ok(())
}

/// The blocks that are left in the hands of a run: those in their lists and those in their deques. With
/// all hands back, nobody else can have one of them. Where all are closed, none is left.
pub fn blocks_left<H: Deal>(alloc: Global, hands: Vec<Hand<H>>) -> Result<Vec<u32>, AllocError>
    requires together { AreTogether H.workers (map (λ h. h.place) hands.items) }
    ensures left { IfOk result (λ left. AreLeft hands.items left.items) }
    ensures closed { IfOk result (λ left. All IsShut hands.items → left.items ≡ []) }
    ensures below { IfOk result (λ left. All (λ b. b < H.blocks) left.items) }
{
    let Apart {
        mut left,
        mut deques,
        others,
    } = take_apart(alloc, hands)?;
    take_all_back(&mut deques, others);
    drain_all(deques, &mut left)?;
    Ok(left)
}

/// Whether the push of a closing mark was refused to one of those hands.
pub fn are_refused<H: Deal>(hands: &[Hand<H>]) -> bool
    ensures { result ≡ some_refused hands.now }
{
    for hand in hands {
        if hand.is_refused() {
            return true;
        }
    }
    false
}
