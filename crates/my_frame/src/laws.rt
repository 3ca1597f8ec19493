//! Laws of chunks, numbers and texts, for every list of bytes. Each function's clause is the law; it does nothing.

ghost use Rattle.std.specs.Prelude.{◌≡◌, ◌==◌, ◌+◌, ◌<◌, ◌≤◌, ◌^◌, ◌↔◌, ◌∷◌, ℕ, List, ◌++◌, Some, length};
ghost use Rattle.std.specs.List.{before_first};
ghost use Rattle.my_frame.specs.declared.fault.CodecFault.{CodecFault as AnyFault};
ghost use Rattle.my_frame.specs.Chunks.{chunks, number_after_payload};
ghost use Rattle.my_frame.specs.Faults.{Faulty};
ghost use Rattle.my_frame.specs.Front.{front_at, Broken, Whole};
ghost use Rattle.my_frame.specs.FrontLaws.{AreBytes, FrontMeans, FrontGrows};
ghost use Rattle.my_frame.specs.Numbers.{IsBeforeZero, IsBytes, IsLen, IsNumber, IsText, IsText0};
ghost use Rattle.my_frame.specs.Numbers.{bytes_at, head_at, len_at, number_at, text0_at, text_at};
ghost use Rattle.my_frame.specs.Writing.{le_bytes, len_bytes, text0_bytes, text_bytes};

/// No payload's chunks begin those of another, whatever follows either.
pub fn one_reading()
    ensures { (p q more rest : List ℕ) (n : ℕ)
        → chunks p n ++ more ≡ chunks q n ++ rest → (p ≡ q) × (more ≡ rest) }
{}

/// Every payload within the limit is read back from its chunks, whatever follows them.
pub fn payload_is_found()
    ensures { (p more : List ℕ) (n limit : ℕ) → length p ≤ limit
        → front_at n limit (chunks p n ++ more) ≡ Whole p more (number_after_payload p n) }
{}

/// A faulty header is found after however many good chunks.
pub fn fault_is_found()
    ensures { (bytes : List ℕ) (n limit : ℕ) (f : AnyFault) → Faulty bytes n 0 limit f
        → front_at n limit bytes ≡ Broken f }
{}

/// Bytes have at most one fault.
pub fn one_fault()
    ensures { (bytes : List ℕ) (n limit : ℕ) (f g : AnyFault) → Faulty bytes n 0 limit f
        → Faulty bytes n 0 limit g → f ≡ g }
{}

/// What is found is what the bytes begin with; where nothing is found, they begin with neither a
/// payload nor a fault.
pub fn front_is_sound()
    ensures { (bytes : List ℕ) (n limit : ℕ) → AreBytes bytes → FrontMeans n limit bytes (front_at n limit bytes) }
{}

/// However a stream is cut, a payload and a fault that are there stay there when more bytes come.
pub fn front_stays()
    ensures { (bytes more : List ℕ) (n limit : ℕ)
        → FrontGrows more (front_at n limit bytes) (front_at n limit (bytes ++ more)) }
{}

/// Reading a payload leaves fewer bytes, by its header at least.
pub fn reading_takes_bytes()
    ensures { (bytes p rest : List ℕ) (n limit next : ℕ) → front_at n limit bytes ≡ Whole p rest next
        → length rest + 4 ≤ length bytes }
{}

/// What bytes begin with is what reading gives.
pub fn numbers_are_read()
    ensures head { (head : ℕ) (bytes rest : List ℕ) → (head_at head bytes ≡ Some rest) ↔ (bytes ≡ head ∷ rest) }
    ensures before { (bytes part : List ℕ) → (before_first (λ b. b == 0) bytes ≡ part) ↔ IsBeforeZero bytes part }
    ensures bytes { (count : ℕ) (bytes part rest : List ℕ)
        → (bytes_at count bytes ≡ Some (part, rest)) ↔ IsBytes count bytes part rest }
    ensures number { (count : ℕ) (bytes : List ℕ) (n : ℕ) (rest : List ℕ)
        → (number_at count bytes ≡ Some (n, rest)) ↔ IsNumber count bytes n rest }
    ensures len { (bytes : List ℕ) (n : ℕ) (rest : List ℕ) → (len_at bytes ≡ Some (n, rest)) ↔ IsLen bytes n rest }
    ensures text { (bytes text rest : List ℕ) → (text_at bytes ≡ Some (text, rest)) ↔ IsText bytes text rest }
    ensures text0 { (bytes text rest : List ℕ) → (text0_at bytes ≡ Some (text, rest)) ↔ IsText0 bytes text rest }
{}

/// What was written is read again, whatever follows it.
pub fn written_is_read()
    ensures number { (count n : ℕ) (rest : List ℕ)
        → n < 256 ^ count → number_at count (le_bytes count n ++ rest) ≡ Some (n, rest) }
    ensures len { (n : ℕ) (rest : List ℕ) → n < 2 ^ 64 → len_at (len_bytes n ++ rest) ≡ Some (n, rest) }
    ensures text { (text rest : List ℕ)
        → length text < 2 ^ 64 → text_at (text_bytes text ++ rest) ≡ Some (text, rest) }
    ensures text0 { (text rest : List ℕ)
        → text0_at (text0_bytes text ++ rest) ≡ Some (before_first (λ b. b == 0) text, rest) }
{}
