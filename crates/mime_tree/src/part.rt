// Parts, and leaves by their numbers.
ghost use Rattle.std.specs.Prelude.{◌≡◌, ◌≢◌, ◌↔◌, IsTrue, MatchOption, Some};
ghost use Rattle.mime_tree.specs.Parts.{IsUnder, part_number};

use octets::Bytes;

/// A part of a message. Places are counted in octets from the front of the whole message. Only leaves have a number,
/// from 1 on in the order of the octets. A multipart has none, and the parts in it are its children.
#[derive(Drop)]
pub struct Part {
    /// None in a multipart.
    pub number: Option<u64>,
    /// The media type, `type/subtype` in lower case.
    pub media: Bytes,
    /// The parameter of Content-Type. Where there is none, `us-ascii` in a text leaf, and None in any other part.
    pub charset: Option<Bytes>,
    /// The type of Content-Disposition, in lower case; None where there is none that can be read.
    pub disposition: Option<Bytes>,
    /// The name of the part's file: `filename*` or `filename` of Content-Disposition, else `name` of Content-Type, decoded
    /// (RFC 8187, RFC 2047). None where there is none of these.
    pub name: Option<Bytes>,
    /// Content-ID without comments, white space and one pair of angle brackets; None where it is missing or nothing is left.
    pub cid: Option<Bytes>,
    /// Content-Language as it is written; None where there is no such field.
    pub language: Option<Bytes>,
    /// Content-Location as a text without white space at its ends; None where there is no such field.
    pub location: Option<Bytes>,
    /// The transfer encoding that the header names, `7bit` where it has none, and the empty text where it can't be read.
    pub encoding: Bytes,
    /// Where the body begins, as it stands, with its transfer encoding.
    pub start: usize,
    /// The place after the body.
    pub end: usize,
    /// Where the header begins.
    pub head_start: usize,
    /// The place after the header and the empty line that ends it.
    pub head_end: usize,
    /// In the order of the octets; none in a leaf.
    pub children: Vec<Part>,
}

fn is_number(of: Option<u64>, number: u64) -> bool
    ensures { IsTrue result ↔ (of ≡ Some number) }
{
    match of {
        None => false,
        Some(n) => n == number,
    }
}

impl Part {
    /// The leaf of this number, which may be the part itself. Walks all parts before it, so it isn't for a loop over
    /// numbers: each leaf in turn costs as many steps as there are parts, squared in all.
    pub fn leaf(&self, number: u64) -> Option<&Part>
        ensures { MatchOption result
            ((q : Part) → IsUnder q self.now → part_number q ≢ Some number)
            (λ q. IsUnder q.now self.now × (part_number q.now ≡ Some number)) }
    {
        if is_number(self.number, number) {
            return Some(self);
        }
        for child in &self.children {
            if let Some(found) = child.leaf(number) {
                return Some(found);
            }
        }
        None
    }
}
