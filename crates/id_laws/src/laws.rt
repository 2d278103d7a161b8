//! Laws of ids. They are said of the definitions alone: the functions do nothing.

ghost use Rattle.std.specs.Prelude.{◌≡◌, ℕ, List, true, Ok, Err};
ghost use Rattle.std.specs.Ordering.{nat_cmp};
ghost use Rattle.std.specs.Cmp.Lexicographic.{slice_cmp};
ghost use Rattle.dura_value.specs.declared.addresses.Id.{Id as Given};
ghost use Rattle.dura_value.specs.Ids.{Id, id_eq, written};
ghost use Rattle.dura_value.specs.Reading.{name_at, key_at, id_in};
ghost use Rattle.dura_value.specs.Views.{id_of};
ghost use Rattle.id_laws.specs.Begins.{IsName, IsKey, IsWritten, StopsAt};
ghost use Rattle.id_laws.specs.Forms.{has_form};

/// Ids that are compared as the same are the same, and each is the same as itself.
#[tactic(auto, using(dura_value::proofs::Ids::id_same, dura_value::proofs::Ids::id_self))]
pub fn ids_are_compared()
    ensures same { (a b : Id) → id_eq a b ≡ true → a ≡ b }
    ensures itself { (a : Id) → id_eq a a ≡ true }
{}

/// The order of ids is that of their written forms, byte by byte.
#[tactic(auto, using(crate::proofs::Order::in_order))]
pub fn ids_are_in_order()
    ensures { (a b : Given) → has_form (id_of a) ≡ true → has_form (id_of b) ≡ true
        → ⟦<dura_value::Id as Ord>⟧.cmp a b
        ≡ slice_cmp nat_cmp (written (id_of a)) (written (id_of b)) }
{}

/// The offset of a fault of reading a name, a key or an id is the length of the longest prefix that begins one.
#[tactic(auto, using(crate::proofs::IdFronts::name_fault, crate::proofs::IdFronts::key_fault, crate::proofs::IdFronts::id_fault))]
pub fn faults_are_where_prefixes_end()
    ensures names { (bytes : List ℕ) (n : ℕ) → name_at 0 bytes ≡ Err n → StopsAt IsName bytes n }
    ensures keys { (bytes : List ℕ) (n : ℕ) → key_at 0 bytes ≡ Err n → StopsAt IsKey bytes n }
    ensures ids { (bytes : List ℕ) (n : ℕ) → id_in bytes ≡ Err n → StopsAt IsWritten bytes n }
{}

/// An id is read where its written form stands, and nothing else is read.
pub fn ids_are_read_back()
    ensures written { (id : Id) → has_form id ≡ true → id_in (written id) ≡ Ok id }
    ensures read { (bytes : List ℕ) (id : Id) → id_in bytes ≡ Ok id
        → (has_form id ≡ true) × (written id ≡ bytes) }
{}
