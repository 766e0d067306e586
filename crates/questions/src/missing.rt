// References: each is a price or is missing. A minimum or maximum skips what is missing.
ghost use Rattle.std.specs.Prelude.{◌≡◌};
ghost use Rattle.questions.specs.Missing.{reference_of, number_of, as_reference, present, is_below, least, greatest, price_or};

use super::Reference;

// 0 means missing.
impl From<u32> for Reference {
    ghost from_gives = { λ number reference. reference ≡ reference_of number };

    fn from(number: u32) -> Reference {
        if number == 0 {
            return Reference::Missing;
        }
        Reference::Price(number)
    }
}

// A missing reference is written as 0.
impl From<Reference> for u32 {
    ghost from_gives = { λ reference number. number ≡ number_of reference };

    fn from(reference: Reference) -> u32 {
        match reference {
            Reference::Missing => 0,
            Reference::Price(price) => price,
        }
    }
}

// What was found, as a reference.
impl From<Option<u32>> for Reference {
    ghost from_gives = { λ found reference. reference ≡ as_reference found };

    fn from(found: Option<u32>) -> Reference {
        match found {
            None => Reference::Missing,
            Some(price) => Reference::Price(price),
        }
    }
}

impl Reference {
    // The price, if there is one.
    pub fn price(self) -> Option<u32>
        ensures { self ≡ as_reference result }
    {
        match self {
            Reference::Missing => None,
            Reference::Price(price) => Some(price),
        }
    }

    // Whether a reference is a price.
    pub fn is_present(self) -> bool
        ensures { result ≡ present self }
    {
        matches!(self, Reference::Price(_))
    }

    // Whether both are prices, and this one is below the other.
    pub fn is_below(self, other: Reference) -> bool
        ensures { result ≡ is_below self other }
    {
        matches!((self, other), (Reference::Price(x), Reference::Price(y)) if x < y)
    }

    // The least of two.
    pub fn least(self, other: Reference) -> Reference
        ensures { result ≡ least self other }
    {
        match (self, other) {
            (Reference::Price(x), Reference::Price(y)) => Reference::Price(x.min(y)),
            (Reference::Missing, _) => other,
            (_, Reference::Missing) => self,
        }
    }

    // The greatest of two.
    pub fn greatest(self, other: Reference) -> Reference
        ensures { result ≡ greatest self other }
    {
        match (self, other) {
            (Reference::Price(x), Reference::Price(y)) => Reference::Price(x.max(y)),
            (Reference::Missing, _) => other,
            (_, Reference::Missing) => self,
        }
    }

    // The price, or another where it is missing.
    pub fn price_or(self, other: u32) -> u32
        ensures { result ≡ price_or other self }
    {
        self.price().unwrap_or(other)
    }
}
