//! What is printed is read again.
ghost use Rattle.std.specs.Prelude.{◌≡◌, ◌<◌, ◌^◌, ℕ, List, Some, All, decimal};
ghost use Rattle.sc_main_script_words.specs.Fields.{bytes_of_token, number_of};
ghost use Rattle.sc_main_script_words.specs.Tokens.{token_of};

/// A printed token is read as the bytes that it was made of.
pub fn tokens_are_read_again()
    ensures { (bytes : List ℕ) → All (λ b. b < 256) bytes → bytes_of_token (token_of bytes) ≡ Some bytes }
{}

/// A printed number is read as that number.
pub fn numbers_are_read_again()
    ensures { (n : ℕ) → n < 2 ^ 64 → number_of (decimal n) ≡ Some n }
{}
