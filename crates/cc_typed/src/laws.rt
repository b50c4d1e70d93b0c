ghost use Rattle.std.specs.Prelude.{◌≡◌, ◌+◌, ◌<◌, ◌≤◌, ◌⊎◌, ◌++◌, ℕ, ℤ, pos, true, List, [], ◌∷◌, length, map, replicate, get_or, slice_get, Some};
ghost use Rattle.cc_typed.specs.Layout.{Layout, Several, Leads, cells, cells_each, count, laid, layouts_in, offset, cells_before};
ghost use Rattle.cc_typed.specs.Parting.{IsPart, is_element_of, is_field_of, part_offset};
ghost use Rattle.cc_typed.specs.Table.{cells_in, cells_in_all, is_table, layout_of, layouts_of};
ghost use Rattle.cc_typed.specs.Types.{array_length, is_same, of_struct};
ghost use Rattle.cc_typed.specs.Values.{AreOf, HasLayout, Value, fetch, flat, flats, part, put, read, store, unflat, unflats, zero_of};
ghost use Rattle.cc_typed.specs.declared.types.DataType.{DataType};
ghost use Rattle.cc_typed.specs.declared.types.Field.{Field};
ghost use Rattle.cc_typed.specs.declared.types.Structure.{Structure};

/// A value of a layout has as many cells as the layout; where their number is the layout's, the cells give the value and the
/// value gives the cells. Cells that are all 0 are the layout's zero.
pub fn cells_and_values()
    ensures length { (l : Layout) (v : Value) → HasLayout l v → length (flat v) ≡ cells l }
    ensures cells_back { (l : Layout) (cs : List ℤ) → length cs ≡ cells l → flat (unflat l cs) ≡ cs }
    ensures value_back { (l : Layout) (v : Value) → HasLayout l v → unflat l (flat v) ≡ v }
    ensures layout { (l : Layout) (cs : List ℤ) → HasLayout l (unflat l cs) }
    ensures zero { (l : Layout) → unflat l (replicate (cells l) (pos 0)) ≡ zero_of l }
{}

/// The same of values in order: arguments, and the variables of a function or body.
pub fn cells_and_values_in_order()
    ensures length { (ls : List Layout) (vs : List Value) → AreOf ls vs → length (flats vs) ≡ cells_each ls }
    ensures cells_back { (ls : List Layout) (cs : List ℤ) → length cs ≡ cells_each ls → flats (unflats ls cs) ≡ cs }
    ensures values_back { (ls : List Layout) (vs : List Value) → AreOf ls vs → unflats ls (flats vs) ≡ vs }
    ensures layouts { (ls : List Layout) (cs : List ℤ) → AreOf ls (unflats ls cs) }
{}

/// What is read after a store is what was stored, and all cells outside that part stay. Values keep their layouts.
pub fn stored_values()
    ensures read { (path : List ℕ) (l m : Layout) (new v : Value) → HasLayout l v → HasLayout m new → Leads l path m → read path (store path new v) ≡ new }
    ensures others { (path : List ℕ) (l m : Layout) (new v : Value) (i : ℕ) → HasLayout l v → HasLayout m new → Leads l path m → (i < offset l path) ⊎ (offset l path + cells m ≤ i) → get_or (flat (store path new v)) i (pos 0) ≡ get_or (flat v) i (pos 0) }
    ensures read_layout { (path : List ℕ) (l m : Layout) (v : Value) → HasLayout l v → Leads l path m → HasLayout m (read path v) }
    ensures store_layout { (path : List ℕ) (l m : Layout) (new v : Value) → HasLayout l v → HasLayout m new → Leads l path m → HasLayout l (store path new v) }
{}

/// A part of a value is a range of its cells, in reading and in storing.
pub fn parts_of_cells()
    ensures inside { (path : List ℕ) (l m : Layout) → Leads l path m → offset l path + cells m ≤ cells l }
    ensures read { (path : List ℕ) (l m : Layout) (cs : List ℤ) → Leads l path m → length cs ≡ cells l → read path (unflat l cs) ≡ unflat m (fetch (cells m) (offset l path) cs) }
    ensures store { (path : List ℕ) (l m : Layout) (cs ws : List ℤ) → Leads l path m → length cs ≡ cells l → length ws ≡ cells m → store path (unflat m ws) (unflat l cs) ≡ unflat l (put (offset l path) ws cs) }
{}

/// The table keeps for each type, known or not, how many cells its layout has; and the layout of a structure is that of its
/// fields in order.
pub fn tables_keep_layouts()
    ensures cells { (structures : List Structure) (t : DataType) → is_table structures ≡ true → cells (layout_of structures t) ≡ cells_in structures t }
    ensures types { (structures : List Structure) (ts : List DataType) → is_table structures ≡ true → cells_each (layouts_of structures ts) ≡ cells_in_all structures ts }
    ensures structure { (structures : List Structure) (n : ℕ) (s : Structure) → is_table structures ≡ true → slice_get structures n ≡ Some s → layout_of structures (of_struct n) ≡ Several (laid (map (λ (f : Field). layout_of structures f.data_type) s.fields)) }
{}

/// A field of a structure and an element of an array are parts, with the cells before them that the table keeps.
pub fn parts_of_types()
    ensures field { (structures : List Structure) (t u : DataType) (k : ℕ) → is_table structures ≡ true → is_field_of structures t k u ≡ true → IsPart structures t k u }
    ensures element { (structures : List Structure) (t u : DataType) (k : ℕ) → is_element_of t u ≡ true → k < array_length t → IsPart structures t k u }
    ensures offset { (structures : List Structure) (t : DataType) (k : ℕ) → is_table structures ≡ true → k < count (layouts_in (layout_of structures t)) → part_offset structures t k ≡ cells_before (layouts_in (layout_of structures t)) k }
    ensures room { (structures : List Structure) (t : DataType) (k : ℕ) (u : DataType) → is_table structures ≡ true → IsPart structures t k u → part_offset structures t k + cells_in structures u ≤ cells (layout_of structures t) }
    ensures value { (structures : List Structure) (t : DataType) (k : ℕ) (u : DataType) (cs : List ℤ) → is_table structures ≡ true → IsPart structures t k u → unflat (layout_of structures u) (fetch (cells_in structures u) (part_offset structures t k) cs) ≡ part (unflat (layout_of structures t) cs) k }
{}

/// A path that goes on by a part leads to that part, with the part's cells before it beside those before the path's end.
pub fn paths_go_on()
    ensures leads { (structures : List Structure) (t m u : DataType) (path : List ℕ) (k : ℕ) → Leads (layout_of structures t) path (layout_of structures m) → IsPart structures m k u → Leads (layout_of structures t) (path ++ k ∷ []) (layout_of structures u) }
    ensures offset { (structures : List Structure) (t m u : DataType) (path : List ℕ) (k : ℕ) → is_table structures ≡ true → Leads (layout_of structures t) path (layout_of structures m) → IsPart structures m k u → offset (layout_of structures t) (path ++ k ∷ []) ≡ offset (layout_of structures t) path + part_offset structures m k }
{}

/// The test tells whether two types are equal.
pub fn types_are_the_same()
    ensures equal { (t u : DataType) → is_same t u ≡ true → t ≡ u }
    ensures alike { (t : DataType) → is_same t t ≡ true }
{}
