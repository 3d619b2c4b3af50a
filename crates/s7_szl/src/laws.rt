//! Laws of the definitions, for proofs that build on them. They do nothing at run time.

ghost use Rattle.std.specs.Prelude.{◌≡◌, ◌≢◌, ℕ, ◌≤◌, ◌<◌, Bool, true, false, List, ◌++◌};
ghost use Rattle.std.specs.Prelude.{length, drop, Some, None};
ghost use Rattle.std.specs.List.{AllByRecursion, concat};
ghost use Rattle.std.specs.Option.{option_and_then};
ghost use Rattle.s7_szl.specs.Octets.{number_at};
ghost use Rattle.s7_szl.specs.Tables.{Table, table_of, components, order_code, greatest_pdu, level};
ghost use Rattle.s7_szl.specs.Images.{image_of, adds_up};
ghost use Rattle.s7_szl.specs.Readers.{mode_of, order_code_of, pdu_of, protection_of, component_of};
ghost use Rattle.s7_szl.specs.Joined.{Joined, begun, is_bad};
ghost use Rattle.s7_szl.specs.Joining.{Piece, open_octets, is_refused, is_list_refused, fronts_of, pieces_of};
ghost use Rattle.s7_szl.specs.Joining.{with_plain, tested, with_piece, with_each};
ghost use Rattle.s7_szl.specs.declared.join.SzlAdded.TheVariants.{Whole};

/// A law: each record of a list has the list's record length. The list's image adds up and has at most 212 octets.
pub fn tables_are_exact()
    ensures records { (id index : ℕ) (running : Bool) (t : Table) → table_of id index running ≡ Some t
        → AllByRecursion (λ r. length r ≡ t.record_len) t.records }
    ensures adds_up { (id index : ℕ) (running : Bool) (image : List ℕ) → image_of id index running ≡ Some image
        → adds_up image ≡ true }
    ensures most { (id index : ℕ) (running : Bool) (image : List ℕ) → image_of id index running ≡ Some image
        → length image ≤ 212 }
{}

/// A law: each field is read from the image of its list. Each component that exists is read from the image of its list,
/// and no other component is.
pub fn written_is_read()
    ensures mode { (running : Bool) → option_and_then mode_of (image_of 0x0424 0 running) ≡ Some running }
    ensures order_code { (running : Bool)
        → option_and_then order_code_of (image_of 0x0011 0 running) ≡ Some order_code }
    ensures pdu { (running : Bool) → option_and_then pdu_of (image_of 0x0131 1 running) ≡ Some greatest_pdu }
    ensures protection { (running : Bool) → option_and_then protection_of (image_of 0x0232 4 running) ≡ Some level }
    ensures components { (running : Bool)
        → AllByRecursion
        (λ r. option_and_then (component_of (number_at r 0)) (image_of 0x001C 0 running) ≡ Some (drop 2 r))
        components.records }
    ensures no_other { (running : Bool) (index : ℕ) → AllByRecursion (λ r. number_at r 0 ≢ index) components.records
        → option_and_then (component_of index) (image_of 0x001C 0 running) ≡ None }
{}

/// A law about slices of which all fit the room and only the last may be empty: a join that isn't at fault appends them
/// to its octets and gives one image, however it was cut. With slices of a status list it does so if the image adds up,
/// as the image of each list does.
pub fn pieces_join()
    ensures plain { (j : Joined) (fronts : List (List ℕ)) (last : List ℕ) → is_bad j.state ≡ false
        → AllByRecursion (λ front. 0 < length front) fronts
        → length (open_octets j ++ (concat fronts ++ last)) ≤ 8448
        → with_each with_plain j (pieces_of fronts last)
        ≡ record { octets = open_octets j ++ (concat fronts ++ last); state = Whole } }
    ensures list { (j : Joined) (fronts : List (List ℕ)) (last : List ℕ) → is_bad j.state ≡ false
        → AllByRecursion (λ front. 0 < length front) fronts
        → length (open_octets j ++ (concat fronts ++ last)) ≤ 8448
        → adds_up (open_octets j ++ (concat fronts ++ last)) ≡ true
        → with_each with_piece j (pieces_of fronts last)
        ≡ record { octets = open_octets j ++ (concat fronts ++ last); state = Whole } }
    ensures tables { (id index : ℕ) (running : Bool) (fronts : List (List ℕ)) (last : List ℕ)
        → AllByRecursion (λ front. 0 < length front) fronts
        → image_of id index running ≡ Some (concat fronts ++ last)
        → with_each with_piece begun (pieces_of fronts last)
        ≡ record { octets = concat fronts ++ last; state = Whole } }
{}

/// A law: whatever the slices are, a join without a fault holds their octets in order, after the octets that it
/// held before. Slices of a status list are joined like others, and their image is tested at the end.
pub fn joins_hold()
    ensures open { (j : Joined) (fronts : List (List ℕ))
        → is_bad (with_each with_plain j (fronts_of fronts)).state ≡ false
        → open_octets (with_each with_plain j (fronts_of fronts)) ≡ open_octets j ++ concat fronts }
    ensures whole { (j : Joined) (fronts : List (List ℕ)) (last : List ℕ)
        → (with_each with_plain j (pieces_of fronts last)).state ≡ Whole
        → (with_each with_plain j (pieces_of fronts last)).octets ≡ open_octets j ++ (concat fronts ++ last) }
    ensures list_open { (j : Joined) (fronts : List (List ℕ))
        → with_each with_piece j (fronts_of fronts) ≡ with_each with_plain j (fronts_of fronts) }
    ensures list_whole { (j : Joined) (fronts : List (List ℕ)) (last : List ℕ)
        → with_each with_piece j (pieces_of fronts last) ≡ tested (with_each with_plain j (pieces_of fronts last)) }
{}

/// A law: a join gets a fault exactly from a slice that is refused, and then keeps it.
pub fn refusals_are_exact()
    ensures plain { (j : Joined) (p : Piece) → is_bad j.state ≡ false
        → is_bad (with_plain j p).state ≡ is_refused (open_octets j) p }
    ensures list { (j : Joined) (p : Piece) → is_bad j.state ≡ false
        → is_bad (with_piece j p).state ≡ is_list_refused (open_octets j) p }
    ensures plain_stays { (j : Joined) (p : Piece) → is_bad j.state ≡ true → with_plain j p ≡ j }
    ensures list_stays { (j : Joined) (p : Piece) → is_bad j.state ≡ true → with_piece j p ≡ j }
{}
