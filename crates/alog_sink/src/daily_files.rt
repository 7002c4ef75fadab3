//! Files by days.
ghost use Rattle.std.specs.Prelude.{◌≡◌, ◌≤◌, ◌≤ℤ◌, pos, true, List, None, [], ◌∷◌, ◌++◌};
ghost use Rattle.std.specs.Prelude.{IfOk, IsOk, OnErr, OnOk, length};
ghost use Rattle.jiff_core.specs.declared.civil.datetime.DateTime.{DateTime};
ghost use Rattle.alog_format.specs.Civil.{IsZone};
ghost use Rattle.alog_sink.specs.Calls.{Counts};
ghost use Rattle.alog_sink.specs.Daily.{is_last};
ghost use Rattle.alog_sink.specs.DailyDeeds.{makes_way};
ghost use Rattle.alog_sink.specs.Deeds.{Does, all_done};
ghost use Rattle.alog_sink.specs.DailyFiles.{StandsFor, change_at, date_of, deeds_before, deeds_of, entry_of, is_later, makes_way_for};
ghost use Rattle.alog_sink.specs.DailyFiles.{period_of, with_entry, with_opened};
ghost use Rattle.alog_sink.specs.Files.{AreSame, Files};
ghost use Rattle.alog_sink.specs.Lines.{IsShownTo, Written};
ghost use Rattle.alog_sink.specs.Names.{IsDate, dated};

use crate::names::{DATE_BYTES, Date, write_dated};
use crate::rotation::FILES_MAX;
use crate::store::{Store, StoreError};
use alog_format::{Zone, civil_at, clock_time};
use alog_msg::{Message, Text};
use circular_buffer::HeapCircularBuffer;
use std::alloc::{AllocError, Global};
use std::marker::Model;

/// The last hour of a day.
pub(crate) const HOUR_MAX: u32 = 23;

/// The last minute of an hour.
pub(crate) const MINUTE_MAX: u32 = 59;

/// Files of one name with dates, of which the last one goes on until a period later than all before begins.
///
/// Texts for the names, and room for the dates of the files that are kept, are there from the start, so that a line takes
/// no memory of its own.
#[derive(Debug, Drop)]
pub(crate) struct DailyFiles {
    file: Text,
    // The second of the day at which a period begins.
    change: u32,
    max_files: usize,
    // The greatest period of a message.
    latest: Option<i64>,
    // The dates of the last opened files, as many as are kept and at least one.
    dates: HeapCircularBuffer<Date>,
    // The name of the file that lines go to, empty where there is none.
    name: String,
    // Has the name of a file that is removed.
    other: String,
}

impl Model for DailyFiles {
    ghost use Rattle.std.specs.Prelude.{◌≡◌, ◌≤◌, ◌+◌, length, map, string_bytes};
    ghost use Rattle.std.specs.List.{All};
    ghost use Rattle.std.specs.String.{string_capacity};
    ghost use Rattle.alog_sink.specs.Daily.{last_name};
    ghost use Rattle.alog_sink.specs.DailyFiles.{Days, names_known};
    ghost use Rattle.alog_sink.specs.Names.{IsDate, dated};
    ghost use Rattle.alog_sink.specs.declared.names.TheConstants.{DATE_BYTES};

    ghost Value = { Days };

    ghost view = { λ d. record {
      limits = record { file = d.file; change = d.change; max_files = d.max_files };
      latest = d.latest;
      names = map (dated d.file) d.dates.items;
    } };

    ghost invariant = { λ d. (string_bytes d.name ≡ last_name (map (dated d.file) d.dates.items))
        × (length d.file + DATE_BYTES ≤ string_capacity d.name) × (length d.file + DATE_BYTES ≤ string_capacity d.other)
        × (d.dates.capacity ≡ names_known d.max_files) × (length d.dates.items ≤ d.dates.capacity) × All IsDate d.dates.items };
}

impl DailyFiles {
    /// The files by days of `file`, before the first line.
    ///
    /// A period begins at `hour`, 0 to 23, and `minute`, 0 to 59. `max_files` is at most 1,000.
    pub(crate) fn open(
        alloc: Global,
        file: &str,
        hour: u32,
        minute: u32,
        max_files: usize,
    ) -> Result<DailyFiles, AllocError>
        requires name { length file.now ≤ 64 }
        requires hour { hour ≤ HOUR_MAX }
        requires minute { minute ≤ MINUTE_MAX }
        requires files { max_files ≤ FILES_MAX }
        ensures { IfOk result (λ d. d ≡ record {
          limits = record { file = file.now; change = change_at hour minute; max_files = max_files };
          latest = None;
          names = [];
        }) }
    {
        let room = file.len() + DATE_BYTES;
        Ok(DailyFiles {
            file: Text::copy_of(alloc, file)?,
            change: hour * 3_600 + minute * 60,
            max_files,
            latest: None,
            dates: HeapCircularBuffer::with_capacity(alloc, max_files.max(1))?,
            name: String::with_capacity(alloc, room)?,
            other: String::with_capacity(alloc, room)?,
        })
    }

    /// Brings a line to the file of its message's period.
    ///
    /// A message of a period later than all before opens the file of its date in the zone. Where that is not the last opened
    /// one, this one is flushed first, unless `max_files` is 1, and then, where `max_files` is not 0, the file that is then not
    /// one of the last `max_files` opened is removed. The line of any other message goes to the last opened file.
    pub(crate) fn put<S: Store>(
        &mut self,
        store: &mut S,
        zone: &Zone,
        message: &Message,
        line: &[u8],
    ) -> Result<(), StoreError>
        requires { IsZone zone.now }
        ensures does { S.tells ≡ true → (w : Written) → IsShownTo zone.now message.now w.at → w.line ≡ line.now
            → Does (deeds_of self.old (entry_of self.old.limits w)) (S.files store.old) (S.files store.new) result }
        ensures kept { S.tells ≡ true → (opening : Files) (ws : List Written) (w : Written) → IsShownTo zone.now message.now w.at
            → w.line ≡ line.now → StandsFor self.old opening ws (S.files store.old)
            → OnOk result (StandsFor self.new opening (ws ++ w ∷ []) (S.files store.new)) }
        ensures same { self.new.limits ≡ self.old.limits }
        ensures counted { Counts (S.failures store.old) (S.failures store.new) result }
    {
        self.begin(store, zone, message)?;
        store.append(self.name.as_str(), line)
    }

    /// Flushes the last opened file, if there is one.
    pub(crate) fn flush<S: Store>(&self, store: &mut S) -> Result<(), StoreError>
        ensures same { S.tells ≡ true → AreSame (S.files store.old) (S.files store.new) }
        ensures counted { Counts (S.failures store.old) (S.failures store.new) result }
        ensures quiet { self.now.names ≡ [] → IsOk result × (store.new ≡ store.old) }
    {
        if self.dates.is_empty() {
            return Ok(());
        }
        store.flush(self.name.as_str())
    }

    // Whether a period is later than all before.
    fn is_later(&self, period: i64) -> bool
        ensures { result ≡ is_later self.now.latest period }
    {
        match self.latest {
            Some(latest) => latest < period,
            None => true,
        }
    }

    // Opens the file of a message whose period is later than all before. Where that fails, the files are as they were.
    fn begin<S: Store>(
        &mut self,
        store: &mut S,
        zone: &Zone,
        message: &Message,
    ) -> Result<(), StoreError>
        requires { IsZone zone.now }
        ensures done { S.tells ≡ true → (w : Written) → IsShownTo zone.now message.now w.at
            → OnOk result (AreSame (all_done (deeds_before self.old (entry_of self.old.limits w)) (S.files store.old)) (S.files store.new)) }
        ensures failed { S.tells ≡ true → OnErr result (AreSame (S.files store.old) (S.files store.new)) }
        ensures year { (w : Written) → IsShownTo zone.now message.now w.at → pos 0 ≤ℤ w.at.date.year }
        ensures begun { (w : Written) → IsShownTo zone.now message.now w.at
            → OnOk result (self.new ≡ with_entry self.old (entry_of self.old.limits w)) }
        ensures same { self.new.limits ≡ self.old.limits }
        ensures counted { Counts (S.failures store.old) (S.failures store.new) result }
    {
        let period = period_of(zone, self.change, message);
        if !self.is_later(period) {
            return Ok(());
        }
        self.open_date(store, date_of(zone, message))?;
        self.latest = Some(period);
        Ok(())
    }

    // Flushes the last opened file, for which nothing asks again once another is opened; unless it is the one that is removed then.
    fn leave<S: Store>(&self, store: &mut S) -> Result<(), StoreError>
        ensures same { S.tells ≡ true → AreSame (S.files store.old) (S.files store.new) }
        ensures counted { Counts (S.failures store.old) (S.failures store.new) result }
    {
        if self.max_files == 1 {
            return Ok(());
        }
        self.flush(store)
    }

    // Opens the file of a date, unless it is the last one. Where that fails, the files are as they were.
    fn open_date<S: Store>(&mut self, store: &mut S, date: Date) -> Result<(), StoreError>
        requires { IsDate date }
        ensures done { S.tells ≡ true → OnOk result
            (AreSame (all_done (makes_way_for self.old (dated self.old.limits.file date)) (S.files store.old)) (S.files store.new)) }
        ensures failed { S.tells ≡ true → OnErr result (AreSame (S.files store.old) (S.files store.new)) }
        ensures opened { OnOk result (self.new ≡ record {
          limits = self.old.limits;
          latest = self.old.latest;
          names = with_opened self.old.limits.max_files self.old.names (dated self.old.limits.file date);
        }) }
        ensures same { self.new.limits ≡ self.old.limits }
        ensures counted { Counts (S.failures store.old) (S.failures store.new) result }
    {
        if self.is_last(date) {
            return Ok(());
        }
        self.leave(store)?;
        self.make_way(store)?;
        self.dates.push_back(date);
        write_dated(&mut self.name, self.file.as_str(), date);
        Ok(())
    }

    // Whether a date is that of the last opened file.
    fn is_last(&self, date: Date) -> bool
        requires { IsDate date }
        ensures last { result ≡ is_last (dated self.now.limits.file date) self.now.names }
        ensures again { result ≡ true
            → self.now.names ≡ with_opened self.now.limits.max_files self.now.names (dated self.now.limits.file date) }
    {
        match self.dates.back() {
            Some(last) => *last == date,
            None => false,
        }
    }

    // Removes the file that is not one of the last `max_files` opened once another is opened, if there is one.
    fn make_way<S: Store>(&mut self, store: &mut S) -> Result<(), StoreError>
        ensures done { S.tells ≡ true → OnOk result
            (AreSame (all_done (makes_way self.old.limits.max_files self.old.names) (S.files store.old)) (S.files store.new)) }
        ensures failed { S.tells ≡ true → OnErr result (AreSame (S.files store.old) (S.files store.new)) }
        ensures same { self.new ≡ self.old }
        ensures counted { Counts (S.failures store.old) (S.failures store.new) result }
    {
        if self.max_files == 0 || !self.dates.is_full() {
            return Ok(());
        }
        let Some(&oldest) = self.dates.front() else {
            return Ok(());
        };
        write_dated(&mut self.other, self.file.as_str(), oldest);
        store.remove(self.other.as_str())
    }
}

// The period of a message, whose year is not before year 0.
fn period_of(zone: &Zone, change: u32, message: &Message) -> i64
    requires { IsZone zone.now }
    ensures period { (at : DateTime) → IsShownTo zone.now message.now at → result ≡ period_of change at }
    ensures year { (at : DateTime) → IsShownTo zone.now message.now at → pos 0 ≤ℤ at.date.year }
{
    let clock = clock_time(zone, message.time);
    if clock.second < i64::from(change) {
        clock.day - 1
    } else {
        clock.day
    }
}

// The date of a message.
fn date_of(zone: &Zone, message: &Message) -> Date
    requires { IsZone zone.now }
    ensures date { (at : DateTime) → IsShownTo zone.now message.now at → result ≡ date_of at }
    ensures fits { IsDate result }
{
    let civil = civil_at(zone, message.time);
    Date {
        year: civil.year,
        month: civil.month,
        day: civil.day,
    }
}
