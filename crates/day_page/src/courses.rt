//! How balances went over the clock.
ghost use Rattle.std.specs.Prelude.{◌≡◌, ◌≤◌, ◌<◌, ◌^◌, ◌-◌, ◌++◌, ◌∷◌, [], ℕ, Some, IfOk, OnOk, get_or, length, map, slice_index, if◌then◌else◌};
ghost use Rattle.std.specs.List.{flat_map};
ghost use Rattle.cash_amounts.specs.declared.limits.TheConstants.{MAX_ACCOUNTS};
ghost use Rattle.row_list.specs.Rows.{row_at};
ghost use Rattle.commit_journal.specs.Line.{History};
ghost use Rattle.commit_journal.specs.Histories.{oldest};
ghost use Rattle.machine.specs.Words.{numbered};
ghost use Rattle.machine.specs.Telling.Balances.{balance};
ghost use Rattle.machine.specs.Legal.{IsLegal};
ghost use Rattle.machine.specs.Telling.History.{is_time};
ghost use Rattle.day_page.specs.Courses;
ghost use Rattle.day_page.specs.Courses.{all_points, course, course_on, courses, point, series, series_on, total};
ghost use Rattle.day_page.specs.Extents;
ghost use Rattle.day_page.specs.Extents.{AreAccounts, Clocks, held_at_stops, held_in};
ghost use Rattle.day_page.specs.Members.{AreCounts};
ghost use Rattle.day_page.specs.Running.{running};
ghost use Rattle.day_page.specs.Stops.{earlier_stops, leaves_slot};

use crate::extents::{Extent, first_extents, held_at, note_line};
use crate::members::{came, counts_of, gone};
use cash_amounts::Memory;
use commit_journal::{Head, Journal, Kind};
use refused_memory::push;
use row_list::RowList;
use rule_book::Setting;
use rule_book::parts::opening;
use std::alloc::Global;

/// How the balance of a row went: of an account, or with 0 of all that are shown. In cents.
#[derive(Clone, Copy, Debug, PartialEq, Eq)]
pub struct Course {
    pub account: u32,
    /// Before the first line.
    pub opening: u128,
    /// The lowest and the highest over all beginnings of the journal.
    pub lowest: u128,
    pub highest: u128,
    /// After the last line.
    pub closing: u128,
}

/// The balance of a row at a stop of the clock, in cents.
#[derive(Clone, Copy, Debug, PartialEq, Eq)]
pub struct Point {
    pub account: u32,
    pub clock: u32,
    pub cents: u128,
}

/// What is known of a row after some lines.
#[derive(Clone, Copy, Debug, PartialEq, Eq)]
pub struct Running {
    pub clock: u32,
    pub held: u128,
    pub lowest: u128,
    pub highest: u128,
}

/// Whether a line moves the clock out of the five minutes in which it stands.
pub fn leaves_slot(now: u32, head: Head) -> bool
    ensures { result ≡ leaves_slot now head }
{
    matches!(head.kind, Kind::Time) && now / 300 < head.entry / 300
}

fn clock_after(before: u32, head: Head) -> u32
    ensures { result ≡ (if is_time head.kind then head.entry else before) }
{
    if matches!(head.kind, Kind::Time) {
        head.entry
    } else {
        before
    }
}

// ---- all that are shown

// What these accounts hold after the line at a place, in cents, where they hold so much before it: first with all that it brings
// to them, then without all that it takes.
fn held_after(
    setting: &Setting,
    journal: &Journal,
    place: u32,
    members: &[u32],
    counts: &[u32],
    held: u128,
) -> u128
    requires legal { IsLegal setting.now.day journal.now.history }
    requires from { 1 ≤ place }
    requires to { place ≤ length journal.now.history }
    requires few { length members.now ≤ MAX_ACCOUNTS }
    requires counts { AreCounts members.now counts.now }
    requires before { held ≡ total setting.now.day members.now
        (oldest journal.now.history (place - 1)) }
    ensures { result ≡ total setting.now.day members.now (oldest journal.now.history place) }
{
    let (_, moves) = journal.line(place);
    held + came(counts, moves) - gone(counts, moves)
}

// What is known of all that are shown after the line at a place.
fn step(
    setting: &Setting,
    journal: &Journal,
    place: u32,
    members: &[u32],
    counts: &[u32],
    before: Running,
) -> Running
    requires legal { IsLegal setting.now.day journal.now.history }
    requires from { 1 ≤ place }
    requires to { place ≤ length journal.now.history }
    requires few { length members.now ≤ MAX_ACCOUNTS }
    requires counts { AreCounts members.now counts.now }
    requires before { before ≡ running setting.now.day members.now
        (oldest journal.now.history (place - 1)) }
    ensures { result ≡ running setting.now.day members.now (oldest journal.now.history place) }
{
    let (head, _) = journal.line(place);
    let held = held_after(setting, journal, place, members, counts, before.held);
    Running {
        clock: clock_after(before.clock, head),
        held,
        lowest: before.lowest.min(held),
        highest: before.highest.max(held),
    }
}

// What an account holds before the first line, in cents.
fn held_first(setting: &Setting, a: u32) -> u64
    ensures { result ≡ balance setting.now.day [] a }
{
    opening(setting, a)
}

fn total_opening(setting: &Setting, members: &[u32]) -> u128
    ensures { result ≡ total setting.now.day members.now [] }
{
    members
        .iter()
        .map(|a| u128::from(held_first(setting, *a)))
        .sum()
}

fn start(setting: &Setting, members: &[u32]) -> Running
    ensures { result ≡ running setting.now.day members.now [] }
{
    let held = total_opening(setting, members);
    Running {
        clock: 0,
        held,
        lowest: held,
        highest: held,
    }
}

// ---- one pass along the journal

// What the accounts that are shown hold, as one more row.
fn put_helds(extents: &[Extent], shown: &[u32], helds: &mut RowList<u64>) -> Result<(), Memory>
    requires small { (a : ℕ) → held_in extents.now a ≤ 10 ^ 18 }
    ensures { OnOk result (helds.new.rows
        ≡ helds.old.rows ++ map (held_in extents.now) shown.now ∷ []) }
{
    helds.begin_row()?;
    for a in shown {
        helds.push(held_at(extents, *a) as u64)?;
    }
    Ok(())
}

fn total_point(at: Running) -> Point
    ensures { result ≡ record { account = 0; clock = at.clock; cents = at.held } }
{
    Point {
        account: 0,
        clock: at.clock,
        cents: at.held,
    }
}

// Puts what is known of a stop, where the line moves the clock out of the five minutes in which it stands.
fn note_stop(
    extents: &[Extent],
    shown: &[u32],
    at: Running,
    head: Head,
    points: &mut Vec<Point>,
    helds: &mut RowList<u64>,
) -> Result<(), Memory>
    requires small { (a : ℕ) → held_in extents.now a ≤ 10 ^ 18 }
    ensures points { OnOk result (points.new.items
        ≡ points.old.items
        ++ (if leaves_slot at.clock head then
        record { account = 0; clock = at.clock; cents = at.held } ∷ [] else [])) }
    ensures helds { OnOk result (helds.new.rows
        ≡ helds.old.rows
        ++ (if leaves_slot at.clock head then map (held_in extents.now) shown.now ∷ [] else [])) }
{
    if leaves_slot(at.clock, head) {
        push(points, total_point(at))?;
        put_helds(extents, shown, helds)?;
    }
    Ok(())
}

// Goes along the journal: what all that are shown hold, with the points of their row but the last, what each of them holds at
// these stops, and what each account holds at the end.
fn run(
    setting: &Setting,
    journal: &Journal,
    shown: &[u32],
    counts: &[u32],
    extents: &mut [Extent],
    points: &mut Vec<Point>,
    helds: &mut RowList<u64>,
) -> Result<Running, Memory>
    requires legal { IsLegal setting.now.day journal.now.history }
    requires few { length shown.now ≤ MAX_ACCOUNTS }
    requires accounts { AreAccounts setting.now.day shown.now }
    requires counts { AreCounts shown.now counts.now }
    requires extents { extents.old ≡ Extents.extents setting.now.day [] }
    ensures at { IfOk result (λ at. at ≡ running setting.now.day shown.now journal.now.history) }
    ensures points { OnOk result (points.new.items
        ≡ points.old.items
        ++ map (point setting.now.day shown.now 0) (earlier_stops journal.now.history)) }
    ensures helds { OnOk result (helds.new.rows
        ≡ helds.old.rows ++ held_at_stops setting.now.day shown.now journal.now.history) }
    ensures extents { OnOk result (extents.new
        ≡ Extents.extents setting.now.day journal.now.history) }
{
    let mut at = start(setting, shown);
    for before in 0..journal.len() {
        let (head, _) = journal.line(before + 1);
        note_stop(extents, shown, at, head, points, helds)?;
        note_line(setting, journal, before + 1, extents);
        at = step(setting, journal, before + 1, shown, counts, at);
    }
    Ok(at)
}

// ---- one account's course

fn extent_at(extents: &[Extent], a: u32) -> Extent
    requires from { 1 ≤ a }
    requires to { a ≤ length extents.now }
    ensures { Some result ≡ numbered extents.now a }
{
    extents[a as usize - 1]
}

// What the account at an index among those that are shown holds at a stop.
fn held_at_stop(helds: &RowList<u64>, stop: usize, index: usize) -> u64
    ensures { result ≡ slice_index (row_at helds.now.rows stop) index }
{
    match helds.row(stop).get(index) {
        Some(cents) => *cents,
        None => 0,
    }
}

// The clock of a point.
fn clock_of(points: &Vec<Point>, i: usize) -> u32
    requires { i < length points.now.items }
    ensures { (d : Point) → result ≡ (get_or points.now.items i d).clock }
{
    points[i].clock
}

// Its points at so many stops, of which the total has a point each, and at last after the whole journal. The account is shown
// at that index.
fn put_points(
    setting: &Setting,
    journal: &Journal,
    shown: &[u32],
    index: usize,
    stops: usize,
    helds: &RowList<u64>,
    extent: Extent,
    points: &mut Vec<Point>,
) -> Result<(), Memory>
    requires within { index < length shown.now }
    requires extent { extent ≡ Extents.extent setting.now.day journal.now.history
        (slice_index shown.now index) }
    requires stops { stops ≡ length (earlier_stops journal.now.history) }
    requires helds { helds.now.rows ≡ held_at_stops setting.now.day shown.now journal.now.history }
    requires clocks { Clocks setting.now.day shown.now journal.now.history points.old.items }
    ensures { OnOk result (points.new.items
        ≡ points.old.items
        ++ series_on setting.now.day (slice_index shown.now index ∷ []) journal.now.history
        (slice_index shown.now index)) }
{
    for stop in 0..stops {
        let clock = clock_of(points, stop);
        push(
            points,
            Point {
                account: shown[index],
                clock,
                cents: u128::from(held_at_stop(helds, stop, index)),
            },
        )?;
    }
    let clock = clock_of(points, stops);
    push(
        points,
        Point {
            account: shown[index],
            clock,
            cents: extent.held,
        },
    )?;
    Ok(())
}

fn course_of(setting: &Setting, account: u32, extent: Extent) -> Course
    ensures { (J : History) → extent ≡ Extents.extent setting.now.day J account
        → result ≡ course_on setting.now.day (account ∷ []) J account }
{
    Course {
        account,
        opening: u128::from(held_first(setting, account)),
        lowest: extent.lowest,
        highest: extent.highest,
        closing: extent.held,
    }
}

// Puts the course of the account that is shown at an index, and its points.
fn put_course(
    setting: &Setting,
    journal: &Journal,
    shown: &[u32],
    index: usize,
    stops: usize,
    extents: &[Extent],
    helds: &RowList<u64>,
    courses: &mut Vec<Course>,
    points: &mut Vec<Point>,
) -> Result<(), Memory>
    requires within { index < length shown.now }
    requires accounts { AreAccounts setting.now.day shown.now }
    requires extents { extents.now ≡ Extents.extents setting.now.day journal.now.history }
    requires stops { stops ≡ length (earlier_stops journal.now.history) }
    requires helds { helds.now.rows ≡ held_at_stops setting.now.day shown.now journal.now.history }
    requires clocks { Clocks setting.now.day shown.now journal.now.history points.old.items }
    ensures courses { OnOk result (courses.new.items
        ≡ courses.old.items
        ++ course setting.now.day shown.now journal.now.history (slice_index shown.now index) ∷ []) }
    ensures points { OnOk result (points.new.items
        ≡ points.old.items
        ++ series setting.now.day shown.now journal.now.history (slice_index shown.now index)) }
{
    let extent = extent_at(extents, shown[index]);
    push(courses, course_of(setting, shown[index], extent))?;
    put_points(setting, journal, shown, index, stops, helds, extent, points)?;
    Ok(())
}

/// The courses of all rows, and their points.
#[derive(Drop)]
pub struct Balances {
    pub courses: Vec<Course>,
    pub points: Vec<Point>,
}

fn put_courses(
    setting: &Setting,
    journal: &Journal,
    shown: &[u32],
    stops: usize,
    extents: &[Extent],
    helds: &RowList<u64>,
    courses: &mut Vec<Course>,
    points: &mut Vec<Point>,
) -> Result<(), Memory>
    requires accounts { AreAccounts setting.now.day shown.now }
    requires extents { extents.now ≡ Extents.extents setting.now.day journal.now.history }
    requires stops { stops ≡ length (earlier_stops journal.now.history) }
    requires helds { helds.now.rows ≡ held_at_stops setting.now.day shown.now journal.now.history }
    requires clocks { Clocks setting.now.day shown.now journal.now.history points.old.items }
    ensures courses { OnOk result (courses.new.items
        ≡ courses.old.items
        ++ map (course setting.now.day shown.now journal.now.history) shown.now) }
    ensures points { OnOk result (points.new.items
        ≡ points.old.items
        ++ flat_map (series setting.now.day shown.now journal.now.history) shown.now) }
{
    for index in 0..shown.len() {
        put_course(
            setting, journal, shown, index, stops, extents, helds, courses, points,
        )?;
    }
    Ok(())
}

// The row of all that are shown, which comes first.
fn put_total(
    setting: &Setting,
    shown: &[u32],
    at: Running,
    courses: &mut Vec<Course>,
    points: &mut Vec<Point>,
) -> Result<(), Memory>
    ensures courses { OnOk result (courses.new.items
        ≡ courses.old.items
        ++ record {
          account = 0;
          opening = total setting.now.day shown.now [];
          lowest = at.lowest;
          highest = at.highest;
          closing = at.held;
        } ∷ []) }
    ensures points { OnOk result (points.new.items
        ≡ points.old.items
        ++ record { account = 0; clock = at.clock; cents = at.held } ∷ []) }
{
    push(
        courses,
        Course {
            account: 0,
            opening: total_opening(setting, shown),
            lowest: at.lowest,
            highest: at.highest,
            closing: at.held,
        },
    )?;
    push(points, total_point(at))?;
    Ok(())
}

// All rows of accounts that are shown, with their sum, by what the accounts hold before the first line.
fn put_rows_by(
    setting: &Setting,
    journal: &Journal,
    shown: &[u32],
    counts: &[u32],
    extents: &mut [Extent],
    helds: &mut RowList<u64>,
    courses: &mut Vec<Course>,
    points: &mut Vec<Point>,
) -> Result<(), Memory>
    requires legal { IsLegal setting.now.day journal.now.history }
    requires few { length shown.now ≤ MAX_ACCOUNTS }
    requires accounts { AreAccounts setting.now.day shown.now }
    requires counts { AreCounts shown.now counts.now }
    requires extents { extents.old ≡ Extents.extents setting.now.day [] }
    requires some { 0 < length shown.now }
    requires helds { helds.old.rows ≡ [] }
    requires courses { courses.old.items ≡ [] }
    requires points { points.old.items ≡ [] }
    ensures courses { OnOk result (courses.new.items
        ≡ Courses.courses setting.now.day shown.now journal.now.history) }
    ensures points { OnOk result (points.new.items
        ≡ all_points setting.now.day shown.now journal.now.history) }
{
    let at = run(setting, journal, shown, counts, extents, points, helds)?;
    let stops = points.len();
    put_total(setting, shown, at, courses, points)?;
    put_courses(
        setting, journal, shown, stops, extents, helds, courses, points,
    )?;
    Ok(())
}

fn put_rows(
    alloc: Global,
    setting: &Setting,
    journal: &Journal,
    shown: &[u32],
    courses: &mut Vec<Course>,
    points: &mut Vec<Point>,
) -> Result<(), Memory>
    requires legal { IsLegal setting.now.day journal.now.history }
    requires few { length shown.now ≤ MAX_ACCOUNTS }
    requires accounts { AreAccounts setting.now.day shown.now }
    requires courses { courses.old.items ≡ [] }
    requires points { points.old.items ≡ [] }
    ensures courses { OnOk result (courses.new.items
        ≡ Courses.courses setting.now.day shown.now journal.now.history) }
    ensures points { OnOk result (points.new.items
        ≡ all_points setting.now.day shown.now journal.now.history) }
{
    if shown.is_empty() {
        return Ok(());
    }
    let counts = counts_of(alloc, setting, shown)?;
    let mut extents = first_extents(alloc, setting)?;
    let mut helds = RowList::new(alloc);
    put_rows_by(
        setting,
        journal,
        shown,
        counts.as_slice(),
        extents.as_mut_slice(),
        &mut helds,
        courses,
        points,
    )
}

/// The courses of the accounts that are shown and of all of them together, with their points. `Memory` says that there wasn't
/// enough of it.
pub fn balances_of(
    alloc: Global,
    setting: &Setting,
    journal: &Journal,
    shown: &[u32],
) -> Result<Balances, Memory>
    requires legal { IsLegal setting.now.day journal.now.history }
    requires few { length shown.now ≤ MAX_ACCOUNTS }
    requires accounts { AreAccounts setting.now.day shown.now }
    ensures courses { IfOk result (λ balances. balances.courses.items
        ≡ courses setting.now.day shown.now journal.now.history) }
    ensures points { IfOk result (λ balances. balances.points.items
        ≡ all_points setting.now.day shown.now journal.now.history) }
{
    let mut courses = Vec::new(alloc);
    let mut points = Vec::new(alloc);
    put_rows(alloc, setting, journal, shown, &mut courses, &mut points)?;
    Ok(Balances { courses, points })
}
