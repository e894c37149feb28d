// What a LIST tells the folders of a mirror (RFC 9051 section 6.3.9).
ghost use Rattle.std.specs.Prelude.{◌≡◌, ◌+◌, ◌^◌, ◌<◌, ◌≤◌, [], None, OnOk, OnErr, length, map, filter, slice_index_or, slice_set};
ghost use Rattle.told_mail.specs.Lists.{listed, with_line, with_new_folder, with_new_folders, ListsKnown};
ghost use Rattle.told_mail.specs.Lists as lists;
ghost use Rattle.told_mail.specs.Mail.{named};
ghost use Rattle.told_mail.specs.Told.{counted_up};
ghost use Rattle.told_mail.specs.reading.Lines.{value_of, lined, lined_at, is_listed, AreLinesFrom, with_pushed};
ghost use Rattle.told_mail.specs.reading.Names.{AllFree, AreApart};
ghost use Rattle.told_mail.specs.reading.Numbers.{NumbersGoOn};
ghost use Rattle.told_mail.specs.reading.Rises.{Rises};

use super::Mirror;
use crate::ended::{clear_ended, keep_told};
use crate::lines::{line_for, lines_of};
use crate::list::{Line, new_folder, set_line};
use crate::names::put_name;
use crate::new_names::new_names;
use crate::{Folder, NumberedFolder};
use imap_types::Response;
use octets::{Bytes, Listed};
use std::alloc::AllocError;
use std::collections::BTreeMap;
use told_folder::puts::one_more;

/// The last number of a folder: JSON's readers keep integers exactly up to it.
pub const MAX_FOLDER_NUMBER: u64 = 9_007_199_254_740_991;

impl Mirror {
    /// What a line of a LIST tells of the folder at a place.
    fn set_line_at(&mut self, at: usize, line: Line<'_>) -> Result<(), AllocError>
        requires { at < length self.old.mail.folders }
        ensures ok { OnOk result ((h : NumberedFolder) → h ≡ slice_index_or self.old.mail.folders at h → self.new.mail ≡ record self.old.mail { folders = slice_set self.old.mail.folders at (with_line (value_of line.entry) h) }) }
        ensures known { (h : NumberedFolder) → h ≡ slice_index_or self.old.mail.folders at h → with_line (value_of line.entry) h ≡ h → OnOk result (self.new.changes ≡ self.old.changes) }
        ensures counts { Rises self.old self.new }
        ensures numbers { NumbersGoOn self.old.mail self.new.mail }
    {
        let held = &mut self.folders[at];
        if set_line(self.alloc, &mut held.folder, line)? {
            self.changes = one_more(self.changes);
        }
        Ok(())
    }

    /// What the lines tell of the folder at a place. One that no line tells stays as it is.
    fn list_at(
        &mut self,
        at: usize,
        responses: &[Response],
        lines: &BTreeMap<Vec<u8>, usize>,
    ) -> Result<(), AllocError>
        requires within { at < length self.old.mail.folders }
        requires lines { AreLinesFrom responses.now 0 lines.now }
        ensures ok { OnOk result (self.new.mail ≡ lined_at responses.now at self.old.mail) }
        ensures known { lined_at responses.now at self.old.mail ≡ self.old.mail → OnOk result (self.new.changes ≡ self.old.changes) }
        ensures counts { Rises self.old self.new }
        ensures numbers { NumbersGoOn self.old.mail self.new.mail }
    {
        match line_for(responses, lines, self.folders[at].folder.name.as_slice()) {
            Some(line) => self.set_line_at(at, line),
            None => Ok(()),
        }
    }

    /// What the lines tell of the folders that they name.
    fn list_told(
        &mut self,
        responses: &[Response],
        lines: &BTreeMap<Vec<u8>, usize>,
    ) -> Result<(), AllocError>
        requires { AreLinesFrom responses.now 0 lines.now }
        ensures ok { OnOk result (self.new.mail ≡ record self.old.mail { folders = map (lined responses.now) self.old.mail.folders }) }
        ensures known { map (lined responses.now) self.old.mail.folders ≡ self.old.mail.folders → OnOk result (self.new.changes ≡ self.old.changes) }
        ensures counts { Rises self.old self.new }
        ensures numbers { NumbersGoOn self.old.mail self.new.mail }
    {
        for at in 0..self.folders.len() {
            self.list_at(at, responses, lines)?;
        }
        Ok(())
    }

    /// Takes out the folders that no line tells, with their messages. No folder is moved more than once.
    fn cut_ended(&mut self, lines: &BTreeMap<Vec<u8>, usize>)
        ensures mail { self.new.mail ≡ record self.old.mail { folders = filter (is_listed lines.now) self.old.mail.folders } }
        ensures known { filter (is_listed lines.now) self.old.mail.folders ≡ self.old.mail.folders → self.new.changes ≡ self.old.changes }
        ensures counts { Rises self.old self.new }
    {
        let before = self.folders.len();
        clear_ended(
            self.folders.as_slice(),
            lines,
            &mut self.marks,
            &mut self.numbers,
        );
        keep_told(&mut self.folders, lines);
        if self.folders.len() != before {
            self.changes = one_more(self.changes);
        }
    }

    /// What a LIST tells of the folders that are there.
    fn list_folders(
        &mut self,
        responses: &[Response],
        lines: &BTreeMap<Vec<u8>, usize>,
    ) -> Result<(), AllocError>
        requires { AreLinesFrom responses.now 0 lines.now }
        ensures ok { OnOk result (self.new.mail ≡ record self.old.mail { folders = listed responses.now self.old.mail.folders }) }
        ensures known { listed responses.now self.old.mail.folders ≡ self.old.mail.folders → OnOk result (self.new.changes ≡ self.old.changes) }
        ensures counts { Rises self.old self.new }
        ensures numbers { NumbersGoOn self.old.mail self.new.mail }
    {
        self.list_told(responses, lines)?;
        self.cut_ended(lines);
        Ok(())
    }

    /// Puts a folder of the next number after the others, without messages.
    fn push_folder(&mut self, folder: Folder) -> Result<(), AllocError>
        requires next { folder.number ≡ self.old.mail.next_folder }
        requires number { folder.number ≤ MAX_FOLDER_NUMBER }
        requires free { named self.old.mail.folders folder.name ≡ None }
        ensures ok { OnOk result (self.new.mail ≡ with_pushed self.old.mail folder) }
        ensures counted { OnOk result (self.new.changes ≡ counted_up self.old.changes) }
        ensures err { OnErr result (self.new ≡ self.old) }
    {
        self.folders.reserve(1)?;
        put_name(
            self.alloc,
            &mut self.numbers,
            folder.name.as_slice(),
            folder.number,
        )?;
        let messages = Listed::from_vec(Vec::new(self.alloc));
        let Ok(()) = self.folders.push(NumberedFolder { folder, messages }) else {
            unreachable!()
        };
        self.next_folder += 1;
        self.changes = one_more(self.changes);
        Ok(())
    }

    /// Adds a new folder as its line tells it, where a number is left.
    fn add_folder(
        &mut self,
        name: &Bytes,
        responses: &[Response],
        lines: &BTreeMap<Vec<u8>, usize>,
    ) -> Result<(), AllocError>
        requires lines { AreLinesFrom responses.now 0 lines.now }
        requires free { named self.old.mail.folders name.now ≡ None }
        ensures ok { OnOk result (self.new.mail ≡ with_new_folder self.old.mail (lists.line_for name.now responses.now)) }
        ensures counts { Rises self.old self.new }
        ensures numbers { NumbersGoOn self.old.mail self.new.mail }
    {
        let Some(line) = line_for(responses, lines, name.as_slice()) else {
            return Ok(());
        };
        if self.next_folder > MAX_FOLDER_NUMBER {
            return Ok(());
        }
        let folder = new_folder(self.alloc, self.next_folder, line)?;
        self.push_folder(folder)
    }

    /// Adds new folders in this order.
    fn add_folders(
        &mut self,
        names: &[Bytes],
        responses: &[Response],
        lines: &BTreeMap<Vec<u8>, usize>,
    ) -> Result<(), AllocError>
        requires lines { AreLinesFrom responses.now 0 lines.now }
        requires free { AllFree self.old.mail.folders names.now }
        requires apart { AreApart names.now }
        ensures ok { OnOk result (self.new.mail ≡ with_new_folders responses.now self.old.mail names.now) }
        ensures known { names.now ≡ [] → OnOk result (self.new.changes ≡ self.old.changes) }
        ensures counts { Rises self.old self.new }
        ensures numbers { NumbersGoOn self.old.mail self.new.mail }
    {
        for name in names {
            self.add_folder(name, responses, lines)?;
        }
        Ok(())
    }

    /// What a LIST tells of the folders. It takes n log n comparisons of names for n lines and folders.
    pub(super) fn tell_list(&mut self, responses: &[Response]) -> Result<(), AllocError>
        ensures ok { OnOk result (self.new.mail ≡ lists.tell_list self.old.mail responses.now) }
        ensures known { ListsKnown self.old.mail.folders responses.now → OnOk result (self.new.changes ≡ self.old.changes) }
        ensures counts { Rises self.old self.new }
        ensures numbers { NumbersGoOn self.old.mail self.new.mail }
    {
        let lines = lines_of(self.alloc, responses)?;
        let names = new_names(self.alloc, &self.numbers, &lines)?;
        self.list_folders(responses, &lines)?;
        self.add_folders(names.as_slice(), responses, &lines)
    }
}
