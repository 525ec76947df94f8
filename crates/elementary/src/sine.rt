// What sine and cosine together answer (crate sine).

// Sine and cosine of one angle, by name: a pair would not say which is which.
#[derive(Clone, Copy)]
pub struct SinCos {
    pub sin: f64,
    pub cos: f64,
}
