// The limits of the TOPEX altimeter's elements (document 01, "Limits of the altimeter elements"; source
// document 004, section 4.4) and of the fields of Cassini's short bursts (document 02, item 1; source
// document 000, section 8.2): for each a table of number, minimum and maximum. How a value is judged by
// them is left to the crate above.
#![tactic(auto)]

ghost use Rattle.std.specs.Prelude.{◌≡◌, take, drop};
ghost use Rattle.limits.specs.Limits.{table_of, line_of};

// Which of the two tables.
#[derive(Clone, Copy, Debug, PartialEq, Eq)]
pub enum Table {
    Altimeter,
    Bursts,
}

// A number, a minimum and a maximum. The number is an element's in section 4.4, or a field's position in
// section 8.1, counted from 1.
#[derive(Clone, Copy, Debug, PartialEq, Eq)]
pub struct Limit {
    pub number: usize,
    pub minimum: i64,
    pub maximum: i64,
}

// Every binary integer element of section 4.4 that states both limits, in that section's order, its
// limits written as they are there.
#[rattlefmt::skip]
static ALTIMETER: [Limit; 95] = [
    Limit { number: 1, minimum: 0, maximum: 6_600 }, // AGC_AltSDR_C
    Limit { number: 2, minimum: 0, maximum: 6_600 }, // AGC_AltSDR_K
    Limit { number: 3, minimum: 0, maximum: 0xFFFF_FFFF_FFFF }, // AltEng_Raw_Clock_Counts
    Limit { number: 6, minimum: 0, maximum: 0xFFFF_FFFF_FFFF }, // AltSci_Raw_Clock_Counts
    Limit { number: 8, minimum: -32_768, maximum: 32_767 }, // Alt_ENG_01
    Limit { number: 9, minimum: -32_768, maximum: 32_767 }, // Alt_ENG_02
    Limit { number: 10, minimum: -32_768, maximum: 32_767 }, // Alt_ENG_03
    Limit { number: 11, minimum: -2_721, maximum: 10_200 }, // Alt_ENG_04
    Limit { number: 12, minimum: -2_000, maximum: 9_999 }, // Alt_ENG_05
    Limit { number: 13, minimum: -2_000, maximum: 9_999 }, // Alt_ENG_06
    Limit { number: 14, minimum: -2_000, maximum: 9_999 }, // Alt_ENG_07
    Limit { number: 15, minimum: -2_000, maximum: 9_999 }, // Alt_ENG_08
    Limit { number: 16, minimum: -2_000, maximum: 9_999 }, // Alt_ENG_09
    Limit { number: 17, minimum: -2_721, maximum: 10_200 }, // Alt_ENG_10
    Limit { number: 18, minimum: -2_000, maximum: 9_999 }, // Alt_ENG_11
    Limit { number: 19, minimum: -2_000, maximum: 9_999 }, // Alt_ENG_12
    Limit { number: 20, minimum: -2_000, maximum: 9_999 }, // Alt_ENG_13
    Limit { number: 21, minimum: -2_000, maximum: 9_999 }, // Alt_ENG_14
    Limit { number: 22, minimum: -2_000, maximum: 9_999 }, // Alt_ENG_15
    Limit { number: 23, minimum: -2_000, maximum: 9_999 }, // Alt_ENG_16
    Limit { number: 24, minimum: -2_000, maximum: 9_999 }, // Alt_ENG_17
    Limit { number: 25, minimum: -2_000, maximum: 9_999 }, // Alt_ENG_18
    Limit { number: 26, minimum: -2_000, maximum: 9_999 }, // Alt_ENG_19
    Limit { number: 27, minimum: -2_000, maximum: 9_999 }, // Alt_ENG_20
    Limit { number: 28, minimum: -2_000, maximum: 9_999 }, // Alt_ENG_21
    Limit { number: 29, minimum: -2_000, maximum: 9_999 }, // Alt_ENG_22
    Limit { number: 30, minimum: -2_000, maximum: 9_999 }, // Alt_ENG_23
    Limit { number: 31, minimum: -2_000, maximum: 9_999 }, // Alt_ENG_24
    Limit { number: 32, minimum: -2_000, maximum: 9_999 }, // Alt_ENG_25
    Limit { number: 33, minimum: -2_000, maximum: 9_999 }, // Alt_ENG_26
    Limit { number: 34, minimum: -2_000, maximum: 9_999 }, // Alt_ENG_27
    Limit { number: 35, minimum: -2_000, maximum: 9_999 }, // Alt_ENG_28
    Limit { number: 36, minimum: -2_000, maximum: 9_999 }, // Alt_ENG_29
    Limit { number: 37, minimum: -2_000, maximum: 9_999 }, // Alt_ENG_30
    Limit { number: 38, minimum: -2_000, maximum: 9_999 }, // Alt_ENG_31
    Limit { number: 39, minimum: 10_000, maximum: 14_000 }, // Alt_ENG_32
    Limit { number: 40, minimum: 24_000, maximum: 32_000 }, // Alt_ENG_33
    Limit { number: 41, minimum: 14_000, maximum: 16_000 }, // Alt_ENG_34
    Limit { number: 42, minimum: -16_000, maximum: -14_000 }, // Alt_ENG_35
    Limit { number: 43, minimum: 4_750, maximum: 5_250 }, // Alt_ENG_36
    Limit { number: 44, minimum: 4_750, maximum: 5_250 }, // Alt_ENG_37
    Limit { number: 45, minimum: -5_700, maximum: -4_700 }, // Alt_ENG_38
    Limit { number: 46, minimum: -6_500, maximum: -5_500 }, // Alt_ENG_39
    Limit { number: 47, minimum: 18_000, maximum: 22_000 }, // Alt_ENG_40
    Limit { number: 48, minimum: 0, maximum: 9_000 }, // Alt_ENG_41
    Limit { number: 49, minimum: 0, maximum: 9_000 }, // Alt_ENG_42
    Limit { number: 50, minimum: 0, maximum: 15_000 }, // Alt_ENG_43
    Limit { number: 51, minimum: 0, maximum: 9_500 }, // Alt_ENG_44
    Limit { number: 52, minimum: 18_000, maximum: 22_000 }, // Alt_ENG_45
    Limit { number: 53, minimum: -3_500, maximum: 3_500 }, // Alt_ENG_46
    Limit { number: 54, minimum: 0, maximum: 1_200 }, // Alt_ENG_47
    Limit { number: 55, minimum: 0, maximum: 8_000 }, // Alt_ENG_48
    Limit { number: 58, minimum: 0, maximum: 255 }, // Alt_Eng_Checksum
    Limit { number: 66, minimum: 0x00, maximum: 0xFF }, // Alt_Eng_Spare
    Limit { number: 78, minimum: 0, maximum: 128 }, // Bad_CRC_Count_AltEng
    Limit { number: 79, minimum: 0, maximum: 17 }, // Bad_CRC_Count_AltSci
    Limit { number: 80, minimum: 0, maximum: 128 }, // Bad_MF_Count_AltEng
    Limit { number: 81, minimum: 0, maximum: 17 }, // Bad_MF_Count_AltSci
    Limit { number: 84, minimum: 0, maximum: 16 }, // Calib_Atten_C
    Limit { number: 85, minimum: 0, maximum: 16 }, // Calib_Atten_K
    Limit { number: 86, minimum: 0, maximum: 255 }, // Checksum_Hi
    Limit { number: 87, minimum: 0, maximum: 255 }, // Checksum_Lo
    Limit { number: 99, minimum: 1_000_000_000, maximum: 1_400_000_000 }, // Height_1011
    Limit { number: 105, minimum: -90_000_000, maximum: 90_000_000 }, // Latitude_AltSDR
    Limit { number: 107, minimum: 0, maximum: 359_999_999 }, // Longitude_AltSDR
    Limit { number: 109, minimum: 0, maximum: 65_535 }, // Memory_Dump_Address
    Limit { number: 113, minimum: -5_000, maximum: -4_000 }, // Net_Time_Tag_Corr
    Limit { number: 114, minimum: 0, maximum: 1_000 }, // Off_Nadir_Angle_SC
    Limit { number: 120, minimum: 0, maximum: 255 }, // Pass_Count_Alt
    Limit { number: 123, minimum: -2_000, maximum: 2_000 }, // Pitch_STR
    Limit { number: 136, minimum: 1_323_000_000, maximum: 1_363_000_000 }, // Range_C
    Limit { number: 137, minimum: 1_323_000_000, maximum: 1_363_000_000 }, // Range_K
    Limit { number: 138, minimum: -32_768, maximum: 32_767 }, // Range_Rate
    Limit { number: 141, minimum: -2_000, maximum: 2_000 }, // Roll_STR
    Limit { number: 142, minimum: 1_323_000_000, maximum: 1_363_000_000 }, // Sat_Alt_AltSDR
    Limit { number: 143, minimum: -32_768, maximum: 32_767 }, // Sat_Alt_Hi_Rate_AltSDR
    Limit { number: 152, minimum: 0, maximum: 32_767 }, // Smoothed_V_Att_C
    Limit { number: 155, minimum: 0, maximum: 32_767 }, // Smoothed_V_Att_K
    Limit { number: 156, minimum: 0, maximum: 3_599 }, // Solar_Array_Pitch_Angle_STR
    Limit { number: 157, minimum: -128, maximum: 127 }, // Solar_Array_Temp_Diff
    Limit { number: 160, minimum: -128, maximum: 127 }, // Spare
    Limit { number: 161, minimum: -32_768, maximum: 32_767 }, // Spare2
    Limit { number: 162, minimum: 0, maximum: 0 }, // Spare_AltEng
    Limit { number: 165, minimum: 0, maximum: 255 }, // Sum_Count
    Limit { number: 168, minimum: 0, maximum: 99_999_999 }, // Time_Corr_Rate_Coarse
    Limit { number: 169, minimum: 0, maximum: 999_999 }, // Time_Corr_Rate_Fine
    Limit { number: 177, minimum: 0, maximum: 0xFFFF_FFFF_FFFF }, // Time_Last_Reset_Raw
    Limit { number: 180, minimum: 500_000, maximum: 520_000 }, // Time_Shift_Midframe
    Limit { number: 183, minimum: 0, maximum: 255 }, // VSWH_AltSDR_C
    Limit { number: 184, minimum: 0, maximum: 255 }, // VSWH_AltSDR_K
    Limit { number: 187, minimum: 0, maximum: 255 }, // Waveform_Samps_Hi, each of the 64
    Limit { number: 188, minimum: 0, maximum: 255 }, // Waveform_Samps_Lo, each of the 64
    Limit { number: 189, minimum: 0, maximum: 15 }, // Waveform_Scale_Hi
    Limit { number: 190, minimum: 0, maximum: 15 }, // Waveform_Scale_Lo
    Limit { number: 191, minimum: -18_000, maximum: 18_000 }, // Yaw_STR
];

// Every integer field of section 8.2 whose minimum and maximum are both decimal whole numbers, in that
// section's order, by the names of section 8.1.
#[rattlefmt::skip]
static BURSTS: [Limit; 43] = [
    Limit { number: 7, minimum: 0, maximum: 255 }, // header_tnc
    Limit { number: 9, minimum: 0, maximum: 65_535 }, // header_tca
    Limit { number: 10, minimum: 0, maximum: 65_535 }, // header_tcb
    Limit { number: 11, minimum: 0, maximum: 65_535 }, // header_tcc
    Limit { number: 13, minimum: 0, maximum: 65_535 }, // vicc
    Limit { number: 14, minimum: 0, maximum: 65_535 }, // vimc
    Limit { number: 16, minimum: 0, maximum: 65_535 }, // tail_id
    Limit { number: 17, minimum: 0, maximum: 65_535 }, // sab_counter
    Limit { number: 18, minimum: 0, maximum: 65_535 }, // sab_len
    Limit { number: 19, minimum: 0, maximum: 255 }, // fswm
    Limit { number: 20, minimum: 0, maximum: 255 }, // fswc
    Limit { number: 21, minimum: 0, maximum: 255 }, // ctbc
    Limit { number: 22, minimum: 0, maximum: 255 }, // rx_window_pri
    Limit { number: 23, minimum: 0, maximum: 2_047 }, // ctps
    Limit { number: 25, minimum: 0, maximum: 64_094 }, // ctps_ctbe
    Limit { number: 27, minimum: 0, maximum: 65_535 }, // slow_tfi
    Limit { number: 28, minimum: 0, maximum: 255 }, // data_take_number
    Limit { number: 30, minimum: 0, maximum: 15 }, // calibration_source
    Limit { number: 31, minimum: 0, maximum: 15 }, // radar_mode
    Limit { number: 32, minimum: 0, maximum: 255 }, // sin
    Limit { number: 33, minimum: 0, maximum: 31 }, // bem
    Limit { number: 34, minimum: 0, maximum: 7 }, // baq_mode
    Limit { number: 41, minimum: 0, maximum: 4_095 }, // at1_each
    Limit { number: 42, minimum: 0, maximum: 4_095 }, // at3_each
    Limit { number: 43, minimum: 0, maximum: 4_095 }, // at4_each
    Limit { number: 46, minimum: 1, maximum: 255 }, // num_rad_meas
    Limit { number: 47, minimum: 216, maximum: 749 }, // num_chirp_steps
    Limit { number: 51, minimum: 0, maximum: 255 }, // fin
    Limit { number: 53, minimum: 0, maximum: 255 }, // num_pulses
    Limit { number: 54, minimum: 0, maximum: 255 }, // bii
    Limit { number: 59, minimum: 0, maximum: 65_535 }, // iebtth
    Limit { number: 60, minimum: 0, maximum: 65_535 }, // iebtll
    Limit { number: 61, minimum: 0, maximum: 65_535 }, // bgcalls
    Limit { number: 62, minimum: 1, maximum: 12 }, // delvmn
    Limit { number: 63, minimum: 1, maximum: 31 }, // delvda
    Limit { number: 64, minimum: 1990, maximum: 2010 }, // delvyr
    Limit { number: 65, minimum: 0, maximum: 4_095 }, // raw_res_load_meas
    Limit { number: 67, minimum: 0, maximum: 4_095 }, // raw_noise_diode_meas
    Limit { number: 68, minimum: 0, maximum: 7 }, // eout
    Limit { number: 69, minimum: 0, maximum: 15 }, // subr
    Limit { number: 70, minimum: 0, maximum: 4_095 }, // space_craft_time
    Limit { number: 144, minimum: 0, maximum: 32_000 }, // raw_active_mode_length
    Limit { number: 251, minimum: 0, maximum: 32_000 }, // altimeter_profile_length
];

impl Table {
    // The table's lines, lent and not copied.
    #[tactic(auto, unfolding(crate::specs::AltimeterLimits::altimeter_table, crate::specs::BurstLimits::burst_table))]
    pub fn lines(self) -> &'static [Limit]
        ensures { result.now ≡ table_of self }
    {
        match self {
            Table::Altimeter => &ALTIMETER,
            Table::Bursts => &BURSTS,
        }
    }
}

// Line `i` of a table, counted from 0: of the lines from there on the first, where there is one.
pub fn line_at(table: Table, i: usize) -> Option<Limit>
    ensures { line_of result ≡ take 1 (drop i (table_of table)) }
{
    table.lines().get(i).copied()
}
