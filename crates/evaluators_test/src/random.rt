// Numbers from a seed, the same in every run.
#[derive(Clone, Copy)]
pub struct Random {
    pub seed: u64,
}

impl Random {
    // A number below `n`, from the seed, which moves on. 0 where `n` is 0.
    pub fn draw(&mut self, n: u16) -> u16 {
        let next = self.seed % 2147483647 * 48271 % 2147483647;
        self.seed = next;
        if n == 0 {
            return 0;
        }
        (next / 8 % u64::from(n)) as u16
    }
}
