// Folders that no line of a LIST tells.
ghost use Rattle.std.specs.BTreeMap.{get};
ghost use Rattle.std.specs.Ordering.{nat_cmp};
ghost use Rattle.std.specs.Prelude.{◌≡◌, ℕ, List, Bool, true, None, if◌then◌else◌, is_some, filter};
ghost use Rattle.told_folder.specs.FolderTelling.{cleared};
ghost use Rattle.told_mail.specs.Mail.{is_same};
ghost use Rattle.told_mail.specs.reading.Index.{IsMirror};
ghost use Rattle.told_mail.specs.reading.Lines.{is_listed};
ghost use Rattle.told_mail.specs.reading.Names.{place_in};

use crate::NumberedFolder;
use crate::names::cut_name;
use std::collections::BTreeMap;
use told_folder::telling::clear_marks;
use told_folder::uids::AllUids;

/// Whether a line has the name.
pub fn has_line(lines: &BTreeMap<Vec<u8>, usize>, name: &[u8]) -> bool
    ensures { result ≡ is_some (place_in lines.now name.now) }
{
    lines.contains_key(name)
}

/// Takes the marks and the name of a folder out of the indexes.
pub fn clear_folder(
    held: &NumberedFolder,
    marks: &mut BTreeMap<u64, (u64, u32)>,
    numbers: &mut BTreeMap<Vec<u8>, u64>,
)
    ensures marks { (q : ℕ) → get nat_cmp marks.new q ≡ cleared (λ u. true) held.now.messages q (get nat_cmp marks.old q) }
    ensures names { (q : List ℕ) → place_in numbers.new q ≡ (if is_same held.now.folder.name q then None else place_in numbers.old q) }
{
    clear_marks(held.messages.as_slice(), &AllUids, marks);
    cut_name(numbers, held.folder.name.as_slice());
}

/// Takes the marks and names of those folders out of the indexes that no line tells.
pub fn clear_ended(
    folders: &[NumberedFolder],
    lines: &BTreeMap<Vec<u8>, usize>,
    marks: &mut BTreeMap<u64, (u64, u32)>,
    numbers: &mut BTreeMap<Vec<u8>, u64>,
)
    ensures { (next_mark next_folder : ℕ) → IsMirror folders.now marks.old numbers.old next_mark next_folder → IsMirror (filter (is_listed lines.now) folders.now) marks.new numbers.new next_mark next_folder }
{
    for held in folders {
        if !has_line(lines, held.folder.name.as_slice()) {
            clear_folder(held, marks, numbers);
        }
    }
}

/// Takes out the folders that no line tells.
pub fn keep_told(folders: &mut Vec<NumberedFolder>, lines: &BTreeMap<Vec<u8>, usize>)
    ensures { folders.new.items ≡ filter (is_listed lines.now) folders.old.items }
{
    folders.retain(|held| has_line(lines, held.folder.name.as_slice()));
}
