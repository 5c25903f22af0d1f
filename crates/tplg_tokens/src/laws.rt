// What holds of all bytes and all arrays.
ghost use Rattle.std.specs.Prelude.{◌≡◌, ℕ, List, Ok};
ghost use Rattle.tplg_model.specs.declared.tokens.TokenArray.{TokenArray as Array};
ghost use Rattle.tplg_model.specs.Arrays.{AreArrays, ArrayFault, IsTokenFault, arrays_spelling};
ghost use Rattle.tplg_model.specs.ArrayReading.{AreArraysOf, arrays_of};

/// Bytes are at most one list of arrays, and what is written of arrays is read as these.
pub fn arrays_are_spelled()
    ensures one { (bytes : List ℕ) (a b : List Array) → AreArrays a → AreArrays b → AreArraysOf bytes a → AreArraysOf bytes b → a ≡ b }
    ensures again { (a : List Array) → AreArrays a → arrays_of (arrays_spelling a) ≡ Ok a }
    // Bytes that are arrays have no fault.
    ensures apart { (bytes : List ℕ) (a : List Array) (fault : ArrayFault) → AreArrays a → AreArraysOf bytes a → IsTokenFault bytes fault → ⊥ }
    // Bytes have at most one first fault.
    ensures one_fault { (bytes : List ℕ) (f g : ArrayFault) → IsTokenFault bytes f → IsTokenFault bytes g → f ≡ g }
{}
