// What the source documents print. A row is an index, then top and bottom of the fraction on each axis; an axis that is not there has 0, 0.

// Document 001: the first ten van der Corput numbers in base 2.
pub const FIRST_TEN: [[u64; 7]; 10] = [
    [1, 1, 2, 0, 0, 0, 0],
    [2, 1, 4, 0, 0, 0, 0],
    [3, 3, 4, 0, 0, 0, 0],
    [4, 1, 8, 0, 0, 0, 0],
    [5, 5, 8, 0, 0, 0, 0],
    [6, 3, 8, 0, 0, 0, 0],
    [7, 7, 8, 0, 0, 0, 0],
    [8, 1, 16, 0, 0, 0, 0],
    [9, 9, 16, 0, 0, 0, 0],
    [10, 5, 16, 0, 0, 0, 0],
];

// Document 001: the base 2 numbers from term 0 on, as far as they are legible.
pub const FROM_ZERO: [[u64; 7]; 16] = [
    [0, 0, 1, 0, 0, 0, 0],
    [1, 1, 2, 0, 0, 0, 0],
    [2, 1, 4, 0, 0, 0, 0],
    [3, 3, 4, 0, 0, 0, 0],
    [4, 1, 8, 0, 0, 0, 0],
    [5, 5, 8, 0, 0, 0, 0],
    [6, 3, 8, 0, 0, 0, 0],
    [7, 7, 8, 0, 0, 0, 0],
    [8, 1, 16, 0, 0, 0, 0],
    [9, 9, 16, 0, 0, 0, 0],
    [10, 5, 16, 0, 0, 0, 0],
    [11, 13, 16, 0, 0, 0, 0],
    [12, 3, 16, 0, 0, 0, 0],
    [13, 11, 16, 0, 0, 0, 0],
    [14, 7, 16, 0, 0, 0, 0],
    [15, 15, 16, 0, 0, 0, 0],
];

// Document 001: the first six Halton vectors in bases 2, 3 and 5.
pub const HALTON_VECTORS: [[u64; 7]; 6] = [
    [1, 1, 2, 1, 3, 1, 5],
    [2, 1, 4, 2, 3, 2, 5],
    [3, 3, 4, 1, 9, 3, 5],
    [4, 1, 8, 4, 9, 4, 5],
    [5, 5, 8, 7, 9, 1, 25],
    [6, 3, 8, 2, 9, 6, 25],
];

// Document 001: eleven scrambled Halton vectors in bases 2, 3 and 5.
pub const SCRAMBLED_VECTORS: [[u64; 7]; 11] = [
    [1, 1, 2, 1, 3, 3, 5],
    [2, 1, 4, 2, 3, 2, 5],
    [3, 3, 4, 1, 9, 1, 5],
    [4, 1, 8, 4, 9, 4, 5],
    [5, 5, 8, 7, 9, 3, 25],
    [6, 3, 8, 2, 9, 18, 25],
    [7, 7, 8, 5, 9, 13, 25],
    [8, 1, 16, 8, 9, 8, 25],
    [9, 9, 16, 1, 27, 23, 25],
    [10, 5, 16, 10, 27, 2, 25],
    [11, 13, 16, 19, 27, 17, 25],
];

// Document 001: the scrambled van der Corput numbers in base 7, by Faure's permutation.
pub const SCRAMBLED_SEVEN: [[u64; 7]; 6] = [
    [1, 2, 7, 0, 0, 0, 0],
    [2, 5, 7, 0, 0, 0, 0],
    [3, 3, 7, 0, 0, 0, 0],
    [4, 1, 7, 0, 0, 0, 0],
    [5, 4, 7, 0, 0, 0, 0],
    [6, 6, 7, 0, 0, 0, 0],
];

// Document 001: the permutations of Kocis and Whiten in bases 31 and 10, as lists of the digits' images.
pub const KOCIS_THIRTY_ONE: [u64; 31] = [
    0, 16, 8, 24, 4, 20, 12, 28, 2, 18, 10, 26, 6, 22, 14, 30, 1, 17, 9, 25, 5, 21, 13, 29, 3, 19,
    11, 27, 7, 23, 15,
];

pub const KOCIS_TEN: [u64; 10] = [0, 8, 4, 2, 6, 1, 9, 5, 3, 7];

// Document 001: the van der Corput numbers in base 7 by that permutation, and the seven-dimensional vector of index 3.
pub const KOCIS_SEVEN: [[u64; 7]; 6] = [
    [1, 4, 7, 0, 0, 0, 0],
    [2, 2, 7, 0, 0, 0, 0],
    [3, 6, 7, 0, 0, 0, 0],
    [4, 1, 7, 0, 0, 0, 0],
    [5, 5, 7, 0, 0, 0, 0],
    [6, 3, 7, 0, 0, 0, 0],
];

pub const KOCIS_FIRST_THREE: [[u64; 7]; 1] = [[3, 3, 4, 2, 9, 1, 5]];

pub const KOCIS_NEXT_THREE: [[u64; 7]; 1] = [[3, 6, 7, 2, 11, 12, 13]];

pub const KOCIS_LAST: [[u64; 7]; 1] = [[3, 4, 17, 0, 0, 0, 0]];

// Document 002: the table of the first 18 van der Corput numbers in base 3.
pub const BASE_THREE: [[u64; 7]; 18] = [
    [0, 0, 1, 0, 0, 0, 0],
    [1, 1, 3, 0, 0, 0, 0],
    [2, 2, 3, 0, 0, 0, 0],
    [3, 1, 9, 0, 0, 0, 0],
    [4, 4, 9, 0, 0, 0, 0],
    [5, 7, 9, 0, 0, 0, 0],
    [6, 2, 9, 0, 0, 0, 0],
    [7, 5, 9, 0, 0, 0, 0],
    [8, 8, 9, 0, 0, 0, 0],
    [9, 1, 27, 0, 0, 0, 0],
    [10, 10, 27, 0, 0, 0, 0],
    [11, 19, 27, 0, 0, 0, 0],
    [12, 4, 27, 0, 0, 0, 0],
    [13, 13, 27, 0, 0, 0, 0],
    [14, 22, 27, 0, 0, 0, 0],
    [15, 7, 27, 0, 0, 0, 0],
    [16, 16, 27, 0, 0, 0, 0],
    [17, 25, 27, 0, 0, 0, 0],
];

// Document 002: the first ten Halton points in bases 2 and 3.
pub const TWO_DIMENSIONS: [[u64; 7]; 10] = [
    [0, 0, 1, 0, 1, 0, 0],
    [1, 1, 2, 1, 3, 0, 0],
    [2, 1, 4, 2, 3, 0, 0],
    [3, 3, 4, 1, 9, 0, 0],
    [4, 1, 8, 4, 9, 0, 0],
    [5, 5, 8, 7, 9, 0, 0],
    [6, 3, 8, 2, 9, 0, 0],
    [7, 7, 8, 5, 9, 0, 0],
    [8, 1, 16, 8, 9, 0, 0],
    [9, 9, 16, 1, 27, 0, 0],
];

// Document 002: the Hammersley set of ten elements, its leading axis and base 2.
pub const HAMMERSLEY: [[u64; 7]; 10] = [
    [0, 0, 1, 0, 1, 0, 0],
    [1, 1, 10, 1, 2, 0, 0],
    [2, 1, 5, 1, 4, 0, 0],
    [3, 3, 10, 3, 4, 0, 0],
    [4, 2, 5, 1, 8, 0, 0],
    [5, 1, 2, 5, 8, 0, 0],
    [6, 3, 5, 3, 8, 0, 0],
    [7, 7, 10, 7, 8, 0, 0],
    [8, 4, 5, 1, 16, 0, 0],
    [9, 9, 10, 9, 16, 0, 0],
];

// Document 002: (0.11101101)_2 plus 1/2, carried to the right, is (0.00011101)_2. The digits of the left side are those of 183.
pub const CARRY_BASE_TWO: [[u64; 7]; 2] = [[183, 237, 256, 0, 0, 0, 0], [184, 29, 256, 0, 0, 0, 0]];

// Document 002: (0.2210012)_3 plus 1/3, carried to the right, is (0.0020012)_3. The digits of the left side are those of 1718.
pub const CARRY_BASE_THREE: [[u64; 7]; 2] = [
    [1718, 2030, 2187, 0, 0, 0, 0],
    [1719, 167, 2187, 0, 0, 0, 0],
];

// Document 003: m_1 to m_3, which are given.
pub const GIVEN: [u64; 3] = [1, 3, 7];

// Document 003: m_4 to m_6 of x^3 + x + 1, whole numbers.
pub const M: [[u64; 7]; 3] = [
    [4, 5, 1, 0, 0, 0, 0],
    [5, 7, 1, 0, 0, 0, 0],
    [6, 43, 1, 0, 0, 0, 0],
];

// Document 003: the direction numbers v_1 to v_4.
pub const DIRECTIONS: [[u64; 7]; 4] = [
    [1, 1, 2, 0, 0, 0, 0],
    [2, 3, 4, 0, 0, 0, 0],
    [3, 7, 8, 0, 0, 0, 0],
    [4, 5, 16, 0, 0, 0, 0],
];

// Document 003: the points of index 0 to 3.
pub const POINTS: [[u64; 7]; 4] = [
    [0, 0, 1, 0, 0, 0, 0],
    [1, 1, 2, 0, 0, 0, 0],
    [2, 1, 4, 0, 0, 0, 0],
    [3, 3, 4, 0, 0, 0, 0],
];
