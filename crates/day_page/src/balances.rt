//! The text of balances over the clock.
ghost use Rattle.std.specs.Prelude.{◌≡◌, ◌++◌, nat_eq};
ghost use Rattle.outside_io.specs.Calls.{Puts};
ghost use Rattle.day_page.specs.BalanceTexts.{balances_text, course_figures, course_head, course_path, course_picture, course_rows, course_table, course_text, course_texts, course_title, frame_text, point_row, point_step, row_name, table_tail};
ghost use Rattle.day_page.specs.CountTexts.{section_end};
ghost use Rattle.day_page.specs.Rows.{AreByAccount, HaveAllOf};

use crate::courses::{Course, Point};
use crate::markup::{account_name, amount, clock_bytes, put_if, put_pieces, x_of, y_of};
use itoa::Buffer;
use outside_io::{Sink, WriteFault, put_all};
use rule_book::Setting;

/// The frame of a picture, with hours below it.
pub fn frame<'a>() -> &'a [u8]
    ensures { result.now ≡ frame_text }
{
    b"<path class='axis' d='M60 10V170H924M276 170v5M492 170v5M708 170v5M924 170v5'/><text x='52' y='175' text-anchor='end'>0</text><text x='60' y='188'>00:00</text><text x='276' y='188' text-anchor='middle'>06:00</text><text x='492' y='188' text-anchor='middle'>12:00</text><text x='708' y='188' text-anchor='middle'>18:00</text><text x='924' y='188' text-anchor='end'>24:00</text>"
}

fn name_of_row(setting: &Setting, a: u32) -> &[u8]
    ensures { result.now ≡ row_name setting.now.day a }
{
    if a == 0 {
        b"All of these accounts"
    } else {
        account_name(setting, a)
    }
}

// ---- a row

#[tactic(auto, unfolding(crate::specs::BalanceTexts::course_title))]
fn put_title<S: Sink>(setting: &Setting, course: &Course, sink: &mut S) -> Result<(), WriteFault>
    ensures { Puts (S.state sink.old) (S.state sink.new) (course_title setting.now.day course.now)
        result }
{
    let opening = amount(course.opening);
    let lowest = amount(course.lowest);
    let highest = amount(course.highest);
    let closing = amount(course.closing);
    let pieces: [&[u8]; 11] = [
        b"<section><h3>",
        name_of_row(setting, course.account),
        b"</h3>\n<p>Opening ",
        opening.as_bytes(),
        b", lowest ",
        lowest.as_bytes(),
        b", highest ",
        highest.as_bytes(),
        b", closing ",
        closing.as_bytes(),
        b".</p>\n",
    ];
    put_pieces(sink, &pieces)
}

#[tactic(auto, unfolding(crate::specs::BalanceTexts::course_picture))]
fn put_picture<S: Sink>(setting: &Setting, course: &Course, sink: &mut S) -> Result<(), WriteFault>
    ensures { Puts (S.state sink.old) (S.state sink.new) (course_picture setting.now.day course.now)
        result }
{
    let mut start = Buffer::new();
    let highest = amount(course.highest);
    let pieces: [&[u8]; 12] = [
        b"<div class='wide' tabindex='0' role='region' aria-label='Picture: ",
        name_of_row(setting, course.account),
        b"'><svg viewBox='0 -16 940 212' role='img' aria-label='Balance over the clock: ",
        name_of_row(setting, course.account),
        b"'><title>Balance over the clock: ",
        name_of_row(setting, course.account),
        b"</title>",
        frame(),
        b"<text x='60' y='-2'>",
        highest.as_bytes(),
        b"</text><path class='line' d='M60 ",
        start
            .format(y_of(course.highest, course.opening))
            .as_bytes(),
    ];
    put_pieces(sink, &pieces)
}

#[tactic(auto, unfolding(crate::specs::BalanceTexts::course_head))]
fn put_head<S: Sink>(setting: &Setting, course: &Course, sink: &mut S) -> Result<(), WriteFault>
    ensures { Puts (S.state sink.old) (S.state sink.new) (course_head setting.now.day course.now)
        result }
{
    put_title(setting, course, sink)?;
    put_picture(setting, course, sink)
}

fn is_at(course: &Course, point: &Point) -> bool
    ensures { result ≡ nat_eq point.now.account course.now.account }
{
    point.account == course.account
}

#[tactic(auto, unfolding(crate::specs::BalanceTexts::point_step, crate::specs::BalanceTexts::step_text))]
fn put_step<S: Sink>(course: &Course, point: &Point, sink: &mut S) -> Result<(), WriteFault>
    ensures { Puts (S.state sink.old) (S.state sink.new) (point_step course.now point.now) result }
{
    let mut across = Buffer::new();
    let mut up = Buffer::new();
    let pieces: [&[u8]; 4] = [
        b"H",
        across.format(x_of(point.clock)).as_bytes(),
        b"V",
        up.format(y_of(course.highest, point.cents)).as_bytes(),
    ];
    put_if(sink, is_at(course, point), &pieces)
}

fn put_path<S: Sink>(points: &[Point], course: &Course, sink: &mut S) -> Result<(), WriteFault>
    ensures { Puts (S.state sink.old) (S.state sink.new) (course_path points.now course.now)
        result }
{
    for point in points {
        put_step(course, point, sink)?;
    }
    Ok(())
}

#[tactic(auto, unfolding(crate::specs::BalanceTexts::course_table))]
fn put_table<S: Sink>(setting: &Setting, course: &Course, sink: &mut S) -> Result<(), WriteFault>
    ensures { Puts (S.state sink.old) (S.state sink.new) (course_table setting.now.day course.now)
        result }
{
    let pieces: [&[u8]; 3] = [
        b"'/></svg></div>\n<details><summary>Figures: ",
        name_of_row(setting, course.account),
        b"</summary><table><caption>Balance when the clock left each stop; in the last row that at the end of the journal</caption><thead><tr><th scope='col'>Clock</th><th scope='col'>Balance</th></tr></thead><tbody>\n",
    ];
    put_pieces(sink, &pieces)
}

#[tactic(auto, unfolding(crate::specs::BalanceTexts::point_row))]
fn put_row<S: Sink>(course: &Course, point: &Point, sink: &mut S) -> Result<(), WriteFault>
    ensures { Puts (S.state sink.old) (S.state sink.new) (point_row course.now point.now) result }
{
    let clock = clock_bytes(point.clock);
    let cents = amount(point.cents);
    let pieces: [&[u8]; 5] = [
        b"<tr><th scope='row'>",
        &clock,
        b"</th><td>",
        cents.as_bytes(),
        b"</td></tr>\n",
    ];
    put_if(sink, is_at(course, point), &pieces)
}

fn put_rows<S: Sink>(points: &[Point], course: &Course, sink: &mut S) -> Result<(), WriteFault>
    ensures { Puts (S.state sink.old) (S.state sink.new) (course_rows points.now course.now)
        result }
{
    for point in points {
        put_row(course, point, sink)?;
    }
    Ok(())
}

fn put_row_end<S: Sink>(points: &[Point], course: &Course, sink: &mut S) -> Result<(), WriteFault>
    ensures { Puts (S.state sink.old) (S.state sink.new)
        (course_rows points.now course.now ++ table_tail) result }
{
    put_rows(points, course, sink)?;
    put_all(sink, b"</tbody></table></details></section>\n")
}

#[tactic(auto, unfolding(crate::specs::BalanceTexts::course_figures))]
fn put_figures<S: Sink>(
    setting: &Setting,
    points: &[Point],
    course: &Course,
    sink: &mut S,
) -> Result<(), WriteFault>
    ensures { Puts (S.state sink.old) (S.state sink.new)
        (course_figures setting.now.day points.now course.now) result }
{
    put_table(setting, course, sink)?;
    put_row_end(points, course, sink)
}

fn put_line_and_figures<S: Sink>(
    setting: &Setting,
    points: &[Point],
    course: &Course,
    sink: &mut S,
) -> Result<(), WriteFault>
    ensures { Puts (S.state sink.old) (S.state sink.new)
        (course_path points.now course.now ++ course_figures setting.now.day points.now course.now)
        result }
{
    put_path(points, course, sink)?;
    put_figures(setting, points, course, sink)
}

#[tactic(auto, unfolding(crate::specs::BalanceTexts::course_text))]
fn put_course<S: Sink>(
    setting: &Setting,
    points: &[Point],
    course: &Course,
    sink: &mut S,
) -> Result<(), WriteFault>
    ensures { Puts (S.state sink.old) (S.state sink.new)
        (course_text setting.now.day points.now course.now) result }
{
    put_head(setting, course, sink)?;
    put_line_and_figures(setting, points, course, sink)
}

// The points of an account. They stand together, as all points stand by their accounts.
fn points_of(points: &[Point], account: u32) -> &[Point]
    requires { AreByAccount points.now }
    ensures { HaveAllOf account points.now result.now }
{
    let from = points.partition_point(|point| point.account < account);
    let later = &points[from..];
    let count = later.partition_point(|point| point.account <= account);
    &later[..count]
}

// Writes a course by the points of all rows.
fn put_own_course<S: Sink>(
    setting: &Setting,
    points: &[Point],
    course: &Course,
    sink: &mut S,
) -> Result<(), WriteFault>
    requires { AreByAccount points.now }
    ensures { Puts (S.state sink.old) (S.state sink.new)
        (course_text setting.now.day points.now course.now) result }
{
    put_course(setting, points_of(points, course.account), course, sink)
}

fn put_courses<S: Sink>(
    setting: &Setting,
    courses: &[Course],
    points: &[Point],
    sink: &mut S,
) -> Result<(), WriteFault>
    requires { AreByAccount points.now }
    ensures { Puts (S.state sink.old) (S.state sink.new)
        (course_texts setting.now.day courses.now points.now) result }
{
    for course in courses {
        put_own_course(setting, points, course, sink)?;
    }
    Ok(())
}

fn put_all_courses<S: Sink>(
    setting: &Setting,
    courses: &[Course],
    points: &[Point],
    sink: &mut S,
) -> Result<(), WriteFault>
    requires { AreByAccount points.now }
    ensures { Puts (S.state sink.old) (S.state sink.new)
        (course_texts setting.now.day courses.now points.now ++ section_end) result }
{
    put_courses(setting, courses, points, sink)?;
    put_all(sink, b"</section>\n")
}

/// Writes the balances over the clock. The points stand by the numbers of their accounts.
#[tactic(auto, unfolding(crate::specs::BalanceTexts::balances_text))]
pub fn put_balances<S: Sink>(
    setting: &Setting,
    courses: &[Course],
    points: &[Point],
    sink: &mut S,
) -> Result<(), WriteFault>
    requires { AreByAccount points.now }
    ensures { Puts (S.state sink.old) (S.state sink.new)
        (balances_text setting.now.day courses.now points.now) result }
{
    put_all(
        sink,
        b"<section id='balances'><h2>Balances over the clock</h2>\n<p>Of the whole day the ten dedicated cash accounts that moved most, of a party all of its own (a system has none), and these together. Of stops within five minutes the last is shown; lowest and highest are those at the opening and after each line.</p>\n",
    )?;
    put_all_courses(setting, courses, points, sink)
}
