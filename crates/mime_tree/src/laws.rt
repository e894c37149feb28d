// Laws of trees, leaves and body lists.
ghost use Rattle.std.specs.Prelude.{◌≡◌, ◌≤◌, ◌⊎◌, ℕ, Bool, List, Option, Some};
ghost use Rattle.mime_tree.specs.declared.lists.BodyLists.{BodyLists};
ghost use Rattle.mime_tree.specs.declared.part.Part.{Part};
ghost use Rattle.mime_tree.specs.declared.split.Mark.{Mark};
ghost use Rattle.mime_tree.specs.declared.split.Piece.{Piece};
ghost use Rattle.mime_tree.specs.Bodies.{HasOctets};
ghost use Rattle.mime_tree.specs.BodyLists.{AreBodyLists};
ghost use Rattle.mime_tree.specs.Delimiters.{IsMarked};
ghost use Rattle.mime_tree.specs.Parts.{IsUnder, part_number};
ghost use Rattle.mime_tree.specs.SameTrees.{Same};
ghost use Rattle.mime_tree.specs.Splits.{IsSplit};
ghost use Rattle.mime_tree.specs.Trees.{IsMessage, IsSingle, IsMulti};

/// A line is a delimiter line, a closing line or neither, and one of them alone.
pub fn one_mark()
    ensures some { (boundary line : List ℕ) → (m : Mark) × IsMarked boundary line m }
    ensures one { (boundary line : List ℕ) (m n : Mark) → IsMarked boundary line m → IsMarked boundary line n → m ≡ n }
{}

/// No body is split in two ways.
pub fn one_split()
    ensures { (b boundary : List ℕ) (r s : Option (List Piece)) → IsSplit b boundary r → IsSplit b boundary s → r ≡ s }
{}

/// No octets have two trees.
pub fn one_tree()
    ensures { (b : List ℕ) (p q : Part) → IsMessage b p → IsMessage b q → Same 64 p q }
{}

/// Under a message each number from 1 up to the highest is one leaf's.
pub fn one_leaf()
    ensures one { (b : List ℕ) (p q r : Part) (n : ℕ) → IsMessage b p → IsUnder q p → IsUnder r p → part_number q ≡ Some n → part_number r ≡ Some n → q ≡ r }
    ensures from_one { (b : List ℕ) (p q : Part) (n : ℕ) → IsMessage b p → IsUnder q p → part_number q ≡ Some n → 1 ≤ n }
    ensures no_gap { (b : List ℕ) (p q : Part) (m n : ℕ) → IsMessage b p → IsUnder q p → part_number q ≡ Some n → 1 ≤ m → m ≤ n → (r : Part) × IsUnder r p × (part_number r ≡ Some m) }
{}

/// A part of a message has a number and no parts in it, or it is a multipart and has none.
pub fn two_kinds()
    ensures { (b : List ℕ) (p q : Part) → IsMessage b p → IsUnder q p → IsSingle q ⊎ IsMulti q }
{}

/// No part spells two lists of octets.
pub fn one_body()
    ensures octets { (p : Part) (b s t : List ℕ) (x y : Bool) → HasOctets p b s x → HasOctets p b t y → s ≡ t }
    ensures problem { (p : Part) (b s t : List ℕ) (x y : Bool) → HasOctets p b s x → HasOctets p b t y → x ≡ y }
{}

/// No part has two values of its body lists, nor have octets.
pub fn one_value_of_body_lists()
    ensures part { (p : Part) (l m : BodyLists) → AreBodyLists l p → AreBodyLists m p → l ≡ m }
    ensures message { (b : List ℕ) (p q : Part) (l m : BodyLists) → IsMessage b p → IsMessage b q → AreBodyLists l p → AreBodyLists m q → l ≡ m }
{}
